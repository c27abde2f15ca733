//! Judgements that are one verdict.
ghost use Rattle.std.specs.Prelude.{◌≡◌, false};
ghost use Rattle.fab_policy.specs.Cause.{is_numbered, plain};

use crate::Judged;
use fab_policy::{Asker, Dropped, Replied, Rule, Settled};
use fip_codec::LoginKind;

// A frame is dropped by a rule that has no number.
pub(crate) fn dropped(rule: Rule) -> Judged<'static>
    requires { is_numbered rule ≡ false }
    ensures { result ≡ Judged.Must (Settled.Dropped (plain rule)) }
{
    Judged::Must(Settled::Dropped(Dropped::new(rule, None).unwrap()))
}

// A request is rejected, a login in FIP of this kind or else a link service: reason and explanation
// (FC-LS-2, "LS_RJT").
pub(crate) fn rejected(
    to: Asker,
    login: Option<LoginKind>,
    reason: u8,
    explanation: u8,
) -> Judged<'static>
    ensures { result ≡ Judged.Replied (Replied.Rejected login reason explanation) to }
{
    let verdict = Replied::Rejected {
        login,
        reason,
        explanation,
    };
    Judged::Replied { verdict, to }
}
