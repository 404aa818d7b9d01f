// The frame numbers of a store: they are to rise strictly.
ghost use Rattle.std.specs.Prelude.{◌≡◌, ◌+◌, ◌%◌, ◌≤◌, length, take, drop};
ghost use Rattle.frames.specs.Frames.{frame_of, frames_of, rising};

// The frame number of the record at byte i.
#[tactic(auto, using(crate::proofs::Records::frame_read))]
pub fn frame(store: &[u8], i: usize) -> u16
    requires { i + 12 ≤ length store.now }
    ensures { result ≡ frame_of (take 12 (drop i store.now)) }
{
    fields::unsigned16(store[i + 10], store[i + 11])
}

// Whether each record's frame number is below the next one's.
pub fn rising(store: &[u8]) -> bool
    requires { length store.now % 12 ≡ 0 }
    ensures { result ≡ rising (frames_of store.now) }
{
    for k in 1..store.len() / 12 {
        let here = frame(store, 12 * k - 12);
        let next = frame(store, 12 * k);
        if next <= here {
            return false;
        }
    }
    true
}
