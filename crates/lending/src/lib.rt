// Calls on a lent region, for callers that hold their region by value.
#![tactic(auto)]

ghost use Rattle.edits.specs.Edits.{Edited};
ghost use Rattle.edits.specs.Edits as edit;

use coo3d::Coo3D;
use edits::EditAnswer;
use region::Region;

// `edits::hold_lent` on a region that is lent for the call.
pub fn hold_on_lent(r: Region, coo: Coo3D) -> EditAnswer
    ensures { Edited (edit.hold coo) r result }
{
    let mut lent = r;
    let outcome = edits::hold_lent(&mut lent, coo);
    EditAnswer {
        region: lent,
        outcome,
    }
}
