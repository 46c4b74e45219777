// Why an input is refused.

use checkpoint::SavedStop;
use genome::GenomeStop;
use lineage_log::LogStop;
use world_config::ConfigStop;

/// Why an input is rejected.
#[derive(Drop)]
pub enum Refusal {
    /// More bytes than the limit.
    TooLong,
    Genome(GenomeStop),
    Config(ConfigStop),
    Log(LogStop),
    Saved(SavedStop),
    /// This cell is outside the world.
    Cell(u32),
    /// The worlds have this many cells together, more than may run side by side.
    Cells(u32),
    /// A saved world would come to this update, which is past the greatest.
    Updates(u64),
}
