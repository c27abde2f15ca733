//! Pages: for each port the bytes that its output grows by next.
ghost use Rattle.std.specs.Prelude.{◌≡◌, ℕ, [], length, replicate, IfOk};
ghost use Rattle.pcap_file.specs.Capture.{head_bytes};
ghost use Rattle.run_files.specs.Pages as spec;
ghost use Rattle.run_files.specs.Pages.{items_in, piece_at};

use fab_base::NoMemory;
use pcap_file::write_head;
use std::alloc::Global;

/// The bytes from which on a page is written.
const FULL: usize = 65536;

/// A page for each of so many ports, with the head of a capture.
pub fn head_records(alloc: Global, ports: usize) -> Result<Vec<Vec<u8>>, NoMemory>
    ensures heads { IfOk result (λ v. items_in v.items ≡ replicate ports head_bytes) }
    ensures count { IfOk result (λ v. length v.items ≡ ports) }
{
    let mut records = Vec::new(alloc);
    for _ in 0..ports {
        let mut record = Vec::new(alloc);
        write_head(alloc, &mut record)?;
        records.push(record)?;
    }
    Ok(records)
}

/// Empties each page, whose room is used again.
pub fn clear_all(pages: &mut [Vec<u8>])
    ensures nothing { (q : ℕ) → piece_at (items_in pages.new) q ≡ [] }
    ensures count { length pages.new ≡ length pages.old }
{
    for page in pages.iter_mut() {
        page.clear();
    }
}

/// Whether a page has so many bytes that it is written: 64 KiB or more.
pub fn is_full(page: &[u8]) -> bool
    ensures { result ≡ spec.is_full page.now }
{
    page.len() >= FULL
}

/// Whether one of these pages is full.
pub fn has_full(pages: &[Vec<u8>]) -> bool
    ensures { result ≡ spec.has_full pages.now }
{
    pages.iter().any(|page| is_full(page))
}
