// A whole store decoded into lanes, as a search keeps it.
#![tactic(auto)]

ghost use Rattle.eval_columns.specs.Columns.{DecodedInto};

use eval_columns::{chunk_count, decode_chunk};
use eval_lanes::Chunk;

// All chunks of a store, as far as there is room; what no chunk of it needs is as it was.
pub fn decode(lanes: &mut [Chunk], store: &[u8], d: u8, power: u16)
    ensures { DecodedInto store.now d power lanes.old lanes.new }
{
    let n = chunk_count(store.len(), lanes.len());
    for (t, chunk) in lanes[..n].iter_mut().enumerate() {
        decode_chunk(chunk, store, t as u8, d, power);
    }
}
