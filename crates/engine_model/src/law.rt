//! The law of traces: what a committed chain has read outside its own writes was true together, at every time of its account's
//! interval.
ghost use Rattle.std.specs.Prelude.{◌≡◌};
ghost use Rattle.engine_model.specs.CacheShape.{CacheShape, ShapedInEveryTrace};
ghost use Rattle.engine_model.specs.Law.{KeepTraceLaw, RestsOnLaws, TimestampsInEveryTrace};
ghost use Rattle.engine_model.specs.Replies.{RepliesInEveryTrace};
ghost use Rattle.engine_model.specs.Rules.{the_limits, the_rules};
ghost use Rattle.engine_model.specs.StoreRefusals.{StoreRefusalsInEveryTrace};

use crate::limits::ChainLimits;
use snapshot::{CHAIN_READINGS, WRITE_KEYS};

/// The limits of every chain. Proved with them: every trace by the rules keeps the law, over a new store of any depth and
/// capacity; whatever caches, timestamps, write sets and limits keep their own laws may stand in the place of these; in every
/// trace each accepted commit with writes has as its timestamp the larger of its clock reading and last + 1, where last is the
/// timestamp of the latest such commit before it, or 0; throughout every trace the caches are in shape; a store refuses a read
/// only as gone, and no commit for unfit writes; and the reply to each call is an answer of its kind or one of the refusals that
/// the table has for the call.
pub fn trace_law() -> ChainLimits
    ensures limits { result ≡ the_limits }
    ensures lawful { KeepTraceLaw the_rules }
    ensures rests { RestsOnLaws }
    ensures timestamps { TimestampsInEveryTrace }
    ensures caches { CacheShape }
    ensures shaped { ShapedInEveryTrace }
    ensures refusals { StoreRefusalsInEveryTrace }
    ensures replies { RepliesInEveryTrace }
{
    ChainLimits {
        write_keys: WRITE_KEYS,
        readings: CHAIN_READINGS,
    }
}
