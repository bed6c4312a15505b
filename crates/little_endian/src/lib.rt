// Little-endian numbers at a place of a slice: a byte past the end reads as 0 and is not written.
#![tactic(auto)]

ghost use Rattle.std.specs.Prelude.{◌≡◌, ◌≤◌, ℕ, [], ◌∷◌, ◌++◌, length, take, drop, replicate};
ghost use Rattle.std.proofs.lemmas.List.Edits.{sets};
ghost use Rattle.little_endian.specs.Number.{value, bytes};

// A number that stands in a slice as its bytes, the lowest first.
pub trait LittleEndian {
    // How many bytes.
    ghost width: { ℕ };

    ghost number: { Self → ℕ };

    fn read(s: &[u8], at: usize) -> Self
        ensures { number result ≡ value (take width (drop at s.now)) };

    fn write(self, s: &mut [u8], at: usize)
        ensures { s.new ≡ sets s.old at (bytes width (number self)) };
}

pub fn get<T: LittleEndian>(s: &[u8], at: usize) -> T
    ensures { T.number result ≡ value (take T.width (drop at s.now)) }
{
    T::read(s, at)
}

pub fn put<T: LittleEndian>(s: &mut [u8], at: usize, x: T)
    ensures { s.new ≡ sets s.old at (bytes T.width (T.number x)) }
{
    x.write(s, at);
}

// The number whose bytes these are, the lowest first.
pub fn word(a: u8, b: u8, c: u8, d: u8) -> u32
    ensures { result ≡ value (a ∷ b ∷ c ∷ d ∷ []) }
{
    u32::from_le_bytes([a, b, c, d])
}

// The bytes from `at` on, 0 past the end.
fn bytes_at<const N: usize>(s: &[u8], at: usize) -> [u8; N]
    ensures { result ≡ take N (drop at s.now ++ replicate N 0) }
{
    let rest = s.get(at..).unwrap_or_default();
    match rest.first_chunk() {
        Some(whole) => *whole,
        None => padded(rest),
    }
}

// Fewer bytes, and zeros: the rare case, kept out of the loops that read.
#[cold]
#[inline(never)]
fn padded<const N: usize>(start: &[u8]) -> [u8; N]
    requires { length start.now ≤ N }
    ensures { result ≡ take N (start.now ++ replicate N 0) }
{
    let mut bytes = [0; N];
    bytes[..start.len()].copy_from_slice(start);
    bytes
}

// Writes the bytes from `at` on, as many as lie inside.
#[tactic(auto, using(crate::proofs::Parts::sets_past, crate::proofs::Parts::whole, crate::proofs::Parts::cut))]
fn set_bytes<const N: usize>(s: &mut [u8], at: usize, bytes: [u8; N])
    ensures { s.new ≡ sets s.old at bytes.entry }
{
    if s.len() <= at {
        return;
    }
    let rest = &mut s[at..];
    match rest.first_chunk_mut() {
        Some(whole) => *whole = bytes,
        None => fill(rest, bytes),
    }
}

// The first bytes over fewer: the rare case, as in `padded`.
#[cold]
#[inline(never)]
fn fill<const N: usize>(rest: &mut [u8], bytes: [u8; N])
    requires { length rest.old ≤ N }
    ensures { rest.new ≡ take (length rest.old) bytes.entry }
{
    let count = rest.len();
    rest.copy_from_slice(&bytes[..count]);
}

// The same two lines for each type: an array's length can't be a member of a trait, and impls are not written by macros here.
impl LittleEndian for u8 {
    ghost width = { 1 };

    ghost number = { λ x. x };

    fn read(s: &[u8], at: usize) -> u8 {
        u8::from_le_bytes(bytes_at(s, at))
    }

    fn write(self, s: &mut [u8], at: usize) {
        set_bytes(s, at, u8::to_le_bytes(self));
    }
}

impl LittleEndian for u16 {
    ghost width = { 2 };

    ghost number = { λ x. x };

    fn read(s: &[u8], at: usize) -> u16 {
        u16::from_le_bytes(bytes_at(s, at))
    }

    fn write(self, s: &mut [u8], at: usize) {
        set_bytes(s, at, u16::to_le_bytes(self));
    }
}

impl LittleEndian for u32 {
    ghost width = { 4 };

    ghost number = { λ x. x };

    fn read(s: &[u8], at: usize) -> u32 {
        u32::from_le_bytes(bytes_at(s, at))
    }

    fn write(self, s: &mut [u8], at: usize) {
        set_bytes(s, at, u32::to_le_bytes(self));
    }
}
