// Text that is put into a buffer at a place. Each function answers the place after its text. It requires the room that the longest such
// text takes, and says that its text is no longer.
#![tactic(auto)]

ghost use Rattle.std.specs.Prelude.{◌≡◌, [], ◌∷◌, ◌++◌, ◌+◌, ◌<◌, ◌≤◌, length, ℤ};
ghost use Rattle.text.specs.Text.{decimal_of, sign_text, signed_text, line_of};
ghost use Rattle.text.specs.Put.{Puts};

pub fn bytes(out: &mut [u8], at: usize, text: &[u8]) -> usize
    requires { at + length text.now ≤ length out.old }
    ensures { Puts text.now at out.old out.new result }
{
    let end = at + text.len();
    out[at..end].copy_from_slice(text);
    end
}

// A number in decimal and the byte that ends it, in just the room that they take.
fn digits_then(out: &mut [u8], at: usize, n: u64, end: u8) -> usize
    requires { at + length (decimal_of n) < length out.old }
    ensures { Puts (decimal_of n ++ (end ∷ [])) at out.old out.new result }
{
    let mut digits = [0u8; 20];
    let count = io::decimal(n, &mut digits);
    let last = bytes(out, at, &digits[..count]);
    out[last] = end;
    last + 1
}

// A number in decimal, and the byte that ends it: at most twenty digits.
pub fn number(out: &mut [u8], at: usize, n: u64, end: u8) -> usize
    requires { at + 21 ≤ length out.old }
    ensures puts { Puts (decimal_of n ++ (end ∷ [])) at out.old out.new result }
    ensures few { result ≤ at + 21 }
{
    digits_then(out, at, n, end)
}

// A number below 100 in decimal, and the byte that ends it: at most two digits.
pub fn small_number(out: &mut [u8], at: usize, n: u8, end: u8) -> usize
    requires { (n < 100) × (at + 3 ≤ length out.old) }
    ensures puts { Puts (decimal_of n ++ (end ∷ [])) at out.old out.new result }
    ensures few { result ≤ at + 3 }
{
    digits_then(out, at, u64::from(n), end)
}

// The sign of a number.
fn sign(out: &mut [u8], at: usize, x: i32) -> usize
    requires { at + 1 ≤ length out.old }
    ensures puts { Puts (sign_text x) at out.old out.new result }
    ensures few { result ≤ at + 1 }
{
    if x < 0 {
        return bytes(out, at, b"-");
    }
    at
}

// A signed number in decimal, and the byte that ends it: at most the sign and ten digits.
pub fn signed(out: &mut [u8], at: usize, x: i32, end: u8) -> usize
    requires { at + 12 ≤ length out.old }
    ensures puts { Puts (signed_text x ++ (end ∷ [])) at out.old out.new result }
    ensures few { result ≤ at + 12 }
{
    let start = sign(out, at, x);
    digits_then(out, start, u64::from(x.unsigned_abs()), end)
}

// A name and a number, as a line.
pub fn line(out: &mut [u8], at: usize, name: &[u8], n: u64) -> usize
    requires { at + length name.now + 21 ≤ length out.old }
    ensures puts { Puts (line_of name.now n) at out.old out.new result }
    ensures few { result ≤ at + length name.now + 21 }
{
    let start = bytes(out, at, name);
    number(out, start, n, b'\n')
}
