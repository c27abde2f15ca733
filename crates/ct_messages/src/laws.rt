//! What reading and writing have to do with each other. These functions do nothing: their contracts
//! are the laws.
ghost use Rattle.std.specs.Prelude.{◌≡◌, ◌↔◌, false, ℕ, List, ◌++◌, Ok, Some};
ghost use Rattle.ct_messages.specs.CanWrite.{CanWrite, IsTyped};
ghost use Rattle.ct_messages.specs.Server.{Known, answer, query, query_refusal};
ghost use Rattle.ct_messages.specs.declared.CtTell.TheVariants.{Reject};
ghost use Rattle.ct_messages.specs.Ct.{Ask, IsCt, decoded, written, is_short, is_for_others};
ghost use Rattle.ct_messages.specs.Ct.{is_cut};

/// A payload is decoded as a request exactly where the fields of the request stand in it, which no
/// test refuses then. So it has one request at most.
pub fn the_table_is_what_is_decoded()
    ensures read { (ask : Ask) (l : List ℕ) → (decoded l ≡ Ok ask) ↔ IsCt ask l }
    ensures passes { (ask : Ask) (l : List ℕ) → IsCt ask l
        → (is_short l ≡ false) × (is_for_others l ≡ false) × (is_cut l ≡ false) }
    ensures unique { (ask other : Ask) (l : List ℕ) → IsCt ask l → IsCt other l → ask ≡ other }
{}

/// The answer to a query is never a reject. So a request is rejected exactly where a refusal says
/// why.
pub fn a_query_is_no_reject()
    ensures query { (ports : List Known) (ask : Ask) (reason explanation : ℕ)
        → query ports ask ≡ Reject reason explanation → ⊥ }
    ensures answer { (ports : List Known) (ask : Ask) (reason explanation : ℕ)
        → (answer ports ask ≡ Reject reason explanation)
        ↔ (query_refusal ports ask ≡ Some (reason, explanation)) }
{}

/// A written request stands in its bytes, and is read back whatever bytes follow.
pub fn a_written_request_is_read_back()
    ensures stands { (ask : Ask) → CanWrite ask → IsTyped ask → IsCt ask (written ask) }
    ensures read { (ask : Ask) → CanWrite ask → IsTyped ask → (more : List ℕ)
        → decoded (written ask ++ more) ≡ Ok ask }
{}
