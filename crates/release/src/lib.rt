// Release (document 01): removes all fragments of an ordinary object, joins the freed bits with each other and with free
// neighbours, and returns the object's pairs in object order. Everything is judged before the first write.
#![tactic(auto)]

ghost use Rattle.release.specs.Released.{Releases};

use geometry::{Reason, Refusal};
use writer::{MOST_PIECES, Piece};

// Releases an object. Refused: 1 to 7 as `map::check`, 8, 9, then 10 and 17 as the listing gives them; a refusal changes no byte of map or list.
// Where the listing gives the pairs nothing is left to refuse, and the object leaves the zones in which they lie.
pub fn release(map: &mut [u8], id: u32, pairs: &mut [u32]) -> Result<usize, Refusal>
    ensures { Releases map.old id pairs.old result map.new pairs.new }
{
    let g = map::check(map)?;
    if !g.is_id(3, id as usize) {
        return Err(Reason::Id.into());
    }
    if let Some(zone) = walk::first_touching(map, g) {
        return Err(Refusal {
            reason: Reason::FreeTouching,
            zone,
        });
    }
    let n = listing::list_object(map, g, id, pairs)?;
    let mut buffer = [Piece::NONE; MOST_PIECES];
    writer::edit_map(map, g, id, &pairs[..2 * n], 0, &mut buffer);
    Ok(n)
}
