//! What holds of every story.

ghost use Rattle.three_parties.specs.Kept.{StoriesKeepPromises};

use blockwise::downloads_join;
use demo_origin::Behaviour;
use history_claims::in_order;
use story_laws::{posts_once, wholes_show, writes_show};
use transformers::Relation;

/// Whatever turns there were with a new device, what is promised of POSTs and of answers to GETs
/// holds of what came of them.
pub fn stories_keep_promises<R: Relation, H: Behaviour>()
    ensures { StoriesKeepPromises R.holds R.takes H.relation }
{
    // Their contracts say what answers mean for a device, whatever a network does.
    posts_once::<H>();
    writes_show::<H>();
    wholes_show::<H>();
    // And these what goes out, and what the pieces of a representation join to.
    in_order();
    downloads_join();
}
