// The walk through two stores whose records are checked, to write.
ghost use Rattle.std.specs.Prelude.{◌≡◌, ◌+◌, ◌%◌, ◌≤◌, length, take, drop};
ghost use Rattle.integers.specs.Lists.{over};
ghost use Rattle.frames.specs.Frames.{merged};
ghost use Rattle.merge.specs.Inside.{put};

// The record at byte i of a store, at byte n of the output.
fn put(out: &mut [u8], n: usize, store: &[u8], i: usize)
    requires { (n + 12 ≤ length out.old) × (i + 12 ≤ length store.now) }
    ensures { out.new ≡ put out.old n (take 12 (drop i store.now)) }
{
    out[n..n + 12].copy_from_slice(&store[i..i + 12]);
}

// The union at the front of the output, `bytes` bytes of it.
pub fn write(first: &[u8], second: &[u8], out: &mut [u8], bytes: usize)
    requires first_len { (length first.now % 12 ≡ 0) × (length second.now % 12 ≡ 0) }
    requires bytes_value { (bytes ≡ length (merged first.now second.now)) × (bytes ≤ length out.old) }
    ensures { out.new ≡ over (merged first.now second.now) out.old }
{
    let mut i = 0;
    let mut j = 0;
    let mut n = 0;
    // The walk steps in two stores, so no `for` over one of them is plainer.
    while n < bytes {
        let f = frames::stride(first, i, second, j);
        let s = frames::stride(second, j, first, i);
        if f == 12 {
            put(out, n, first, i);
        } else {
            put(out, n, second, j);
        }
        i += f;
        j += s;
        n += 12;
    }
}
