// Rows one after the other, each ended by a mark.
#![tactic(auto)]

ghost use Rattle.std.specs.Prelude.{◌≡◌};
ghost use Rattle.rows.specs.Rows.{nth};

// The row after so many others; nothing where there are not so many.
pub fn nth(rows: &[u8], mark: u8, n: usize) -> &[u8]
    ensures { result.now ≡ nth mark n rows.now }
{
    rows.split(|b| *b == mark).nth(n).unwrap_or(&[])
}
