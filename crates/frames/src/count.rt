// The walk through two stores whose frame numbers rise, to count.
ghost use Rattle.std.specs.Prelude.{◌≡◌, length};
ghost use Rattle.codes.specs.Codes.{unless_refused};
ghost use Rattle.frames.specs.Frames.{merged, check_clash};
ghost use Rattle.frames.specs.Inside.{Sound};

use crate::stride;
use codes::Refusal;

// Check 16, and how many bytes the union has. Both stores go on at once only past records of one frame. The walk steps in two stores, by
// 0 or 12 bytes in each, so no `for` over one of them is plainer.
pub fn count(first: &[u8], second: &[u8]) -> Result<u64, Refusal>
    requires { Sound first.now × Sound second.now }
    ensures { result
        ≡ unless_refused (check_clash first.now second.now)
        (length (merged first.now second.now)) }
{
    let both = first.len() + second.len();
    let mut i = 0;
    let mut j = 0;
    let mut n = 0;
    while i + j < both {
        let f = stride(first, i, second, j);
        let s = stride(second, j, first, i);
        if f == s && first[i..i + f] != second[j..j + s] {
            return Err(Refusal::Clash);
        }
        i += f;
        j += s;
        n += 12;
    }
    Ok(n)
}
