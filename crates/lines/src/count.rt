// How many lines lie between two places.
ghost use Rattle.std.specs.Prelude.{◌≡◌, ◌-◌, ◌≤◌, length};
ghost use Rattle.lines.specs.Lines.{lf_in, line_of};

// How many of at most 255 bytes are LF: a sum of one byte, which is compiled to comparisons of sixteen bytes.
#[tactic(auto, using(crate::proofs::Laws::lf_sum))]
fn count_short(part: &[u8]) -> u8
    requires { length part.now ≤ 255 }
    ensures { result ≡ lf_in part.now }
{
    part.iter().map(|c| u8::from(*c == b'\n')).sum()
}

// How many lines further `to` lies than `from`: none if it does not lie behind it.
pub fn lines_between(buf: &[u8], from: usize, to: usize) -> usize
    ensures { result ≡ line_of buf.now to - line_of buf.now from }
{
    let mut n = 0;
    if let Some(between) = buf.get(from..to.min(buf.len())) {
        // 224 is a multiple of 32: a part that is none leaves bytes behind the last comparison, which are told one by one.
        for part in between.chunks(224) {
            n += usize::from(count_short(part));
        }
    }
    n
}
