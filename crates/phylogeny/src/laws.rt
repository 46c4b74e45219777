ghost use Rattle.std.specs.Prelude.{List};
ghost use Rattle.log_lines.specs.Line.{Line};
ghost use Rattle.lineage_log.specs.LogGrammar.{IsGoodLog};
ghost use Rattle.phylogeny.specs.CommonAncestor.{most_recent_common_ancestor, TellsLatestCommon};
ghost use Rattle.phylogeny.specs.TreeText.{pedigree_of};

/// In a good log the latest common ancestor is the greatest id in the lines of descent of all
/// living organisms. There is none exactly if no organism lives, or if two of the living have
/// different founders.
pub fn common_ancestors_are_latest()
    ensures { (lines : List Line) → IsGoodLog lines
        → TellsLatestCommon (pedigree_of lines)
        (most_recent_common_ancestor (pedigree_of lines)) }
{}
