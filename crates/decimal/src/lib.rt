// Numbers in decimal digits.

#![tactic(auto)]

ghost use Rattle.std.specs.Prelude.{◌≡◌, length};
ghost use Rattle.decimal.specs.Digits.{digits};

// Fills a buffer with the last decimal digits of n, as many as it has bytes.
#[tactic(auto, using(crate::proofs::DigitLaws::one_written), unfolding(crate::specs::Digits::digits))]
pub fn write_digits(out: &mut [u8], n: usize)
    ensures { out.new ≡ digits (length out.old) n }
{
    let mut rest = n;
    for i in (0..out.len()).rev() {
        out[i] = b'0' + (rest % 10) as u8;
        rest /= 10;
    }
}
