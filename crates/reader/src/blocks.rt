// Blocks of a text: whether a line ends in one, which byte of it is the first that does, and passing those in which none does.
ghost use Rattle.std.specs.Prelude.{◌≡◌, false, ◌+◌, ◌*◌, ◌≤◌, ◌<◌, length, MatchOption};
ghost use Rattle.lines.specs.Ending.{Closed};
ghost use Rattle.reader.specs.Lines.{NoEnd};
ghost use Rattle.reader.specs.Blocks.{Lowest, IfEnd, FirstEnd, Tells};

// Whether one of the bytes of the block of this size from a place on ends a line.
pub fn ends(text: &[u8], at: usize, size: usize) -> bool
    requires { at + size ≤ length text.now }
    ensures { result ≡ false → NoEnd text.now at (at + size) }
{
    let mut found = false;
    for b in &text[at..at + size] {
        if *b == b'\n' {
            found = true;
        }
    }
    found
}

// The lowest of so many bytes, each 16 behind the one before.
fn lowest(text: &[u8], at: usize, many: usize) -> u8
    requires { at + 16 * many ≤ length text.now + 15 }
    ensures { Lowest text.now at many result }
{
    let mut least: u8 = 255;
    for j in 0..many {
        least = least.min(text[at + 16 * j]);
    }
    least
}

// Whether one of the 512 bytes from a place on is 10 or lower, in 16 rows of 32: it compiles to one or two vector instructions for 16 bytes.
pub fn has_low(text: &[u8], at: usize) -> bool
    requires { at + 512 ≤ length text.now }
    ensures { result ≡ false → NoEnd text.now at (at + 512) }
{
    let mut low = false;
    for i in 0..16 {
        low |= lowest(text, at + i, 32) <= 10;
    }
    low
}

// Passes blocks of this size, while a test says that no line ends in them.
pub fn pass<F: Fn(usize) -> bool>(text: &[u8], at: usize, size: usize, test: F) -> usize
    requires place { (at < length text.now) × (1 ≤ size) × Closed text.now }
    requires tells { Tells text.now size (F.pre test) (F.post test) }
    ensures { (at ≤ result) × (result < length text.now) × NoEnd text.now at result }
{
    let mut i = at;
    while size <= text.len() - i {
        if test(i) {
            return i;
        }
        i += size;
    }
    i
}

// Passes such blocks back to a place at most, from one behind which no line ends.
pub fn pass_back<F: Fn(usize) -> bool>(
    text: &[u8],
    from: usize,
    to: usize,
    size: usize,
    test: F,
) -> usize
    requires place { (to ≤ from) × (from ≤ length text.now) × (1 ≤ size) × NoEnd text.now from (length text.now) }
    requires tells { Tells text.now size (F.pre test) (F.post test) }
    ensures { (to ≤ result) × (result ≤ from) × NoEnd text.now result (length text.now) }
{
    let mut r = from;
    while size <= r - to {
        if test(r - size) {
            return r;
        }
        r -= size;
    }
    r
}

// The number, where the byte ends a line; else 255.
fn if_end(b: u8, number: u8) -> u8
    ensures { IfEnd b number result }
{
    if b == b'\n' { number } else { 255 }
}

// Which of the 64 bytes from a place on is the first that ends a line. No branch hangs on the bytes.
pub fn first_end(text: &[u8], at: usize) -> Option<usize>
    requires { at + 64 ≤ length text.now }
    ensures { MatchOption result (FirstEnd text.now at 64 255) (λ r. (r < 64) × FirstEnd text.now at 64 r) }
{
    let mut first: u8 = 255;
    for number in 0..64u8 {
        first = if_end(text[at + usize::from(number)], number).min(first);
    }
    if 64 <= first {
        return None;
    }
    Some(usize::from(first))
}
