// For the test programs: cases one after the other, each ended by a mark, and the fields of a case likewise (crates/rows picks one).
// In a file a case is a line, and some bytes stand for others that would not show.
#![tactic(auto)]

ghost use Rattle.std.specs.Prelude.{◌≡◌, map, ◌-◌, ◌≤◌, OnOk, IfErr};
ghost use Rattle.cases.specs.Cases.{marks, meant, worth, in_order};
ghost use Rattle.cases.specs.Each.{AllWell, FirstFault};

use std::io;

// How many there are.
pub fn count(cases: &[u8], mark: u8) -> usize
    ensures { result ≡ marks mark cases.now }
{
    cases.iter().filter(|b| **b == mark).count()
}

// A call at each case in its order, up to the first that fails.
pub fn each<F: FnMut(&[u8]) -> io::Result<()>>(cases: &[u8], mark: u8, mut f: F) -> io::Result<()>
    requires { F.IsAlwaysCallable f }
    ensures all { OnOk result (AllWell F.step f (in_order mark cases.now)) }
    ensures fault { IfErr result (λ e. FirstFault F.step e f (in_order mark cases.now)) }
{
    for i in 0..count(cases, mark) {
        f(rows::nth(cases, mark, i))?;
    }
    Ok(())
}

// The end of a case.
pub const END: u8 = 30;

#[tactic(auto, unfolding(crate::specs::Cases::meant))]
fn what_is_meant(b: u8) -> u8
    ensures { result ≡ meant b }
{
    match b {
        b'\n' => END,
        b'$' => b'\n',
        b'&' => b'\t',
        b'%' => b'\r',
        b'@' => 0,
        _ => b,
    }
}

// Each byte of a file becomes the one that it stands for.
#[tactic(auto, using(crate::proofs::Laws::meant_on, crate::proofs::Laws::meant_all))]
pub fn put_meant(file: &mut [u8])
    ensures { file.new ≡ map meant file.old }
{
    for b in file.iter_mut() {
        *b = what_is_meant(*b);
    }
}

// The number that digits make, up to the first that brings it over 9,999.
#[tactic(auto, using(crate::proofs::Laws::worth_on, crate::proofs::Laws::worth_over, crate::proofs::Laws::worth_out))]
pub fn worth(digits: &[u8]) -> usize
    ensures { result ≡ worth 0 digits.now }
{
    let mut n = 0;
    for b in digits {
        if 9999 < n {
            return n;
        }
        n = n * 10 + b.saturating_sub(b'0') as usize;
    }
    n
}
