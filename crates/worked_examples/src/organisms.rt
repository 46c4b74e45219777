// Templates, tasks and slices (docs/MACHINE.md and docs/WORLD.md).
ghost use Rattle.std.specs.Prelude.{◌≡◌, [], ◌∷◌, Some, None, negsuc};
ghost use Rattle.instruction_set.specs.declared.letter.Letter.TheVariants.{NopA, NopB, NopC, Inc};
ghost use Rattle.label_search.specs.Template.{nops_read, complements_of};
ghost use Rattle.label_search.specs.Search.{first_match};
ghost use Rattle.logic_tasks.specs.LogicTasks.{task_done};
ghost use Rattle.logic_tasks.specs.declared.task.Task.TheVariants.{Not, Nand};
ghost use Rattle.merit_slices.specs.Slices.{slices_of};

pub fn a_template_is_found_at_the_least_place_before_the_end()
    ensures least { first_match (NopB ∷ Inc ∷ NopA ∷ NopB ∷ NopA ∷ NopB ∷ []) (NopA ∷ NopB ∷ [])
        ≡ Some 2 }
    ensures across_the_end { first_match (NopB ∷ Inc ∷ Inc ∷ NopA ∷ []) (NopA ∷ NopB ∷ []) ≡ None }
    ensures complement { complements_of (NopA ∷ NopB ∷ NopC ∷ []) ≡ NopB ∷ NopC ∷ NopA ∷ [] }
    ensures another_letter { nops_read (NopA ∷ NopB ∷ []) Inc ≡ [] }
{}

#[tactic(auto, unfolding(logic_tasks::specs::LogicTasks::task_done, logic_tasks::specs::LogicTasks::computes))]
pub fn an_output_does_the_first_task_whose_equation_holds()
    ensures one_input { task_done (negsuc 251658240) (0x0F000000 ∷ 0x33000000 ∷ 0x55000000 ∷ []) 1
        ≡ Some Not }
    ensures no_input { task_done (negsuc 251658240) (0x0F000000 ∷ 0x33000000 ∷ 0x55000000 ∷ []) 0
        ≡ None }
    ensures two_inputs { task_done (negsuc 50331648) (0x0F000000 ∷ 0x33000000 ∷ 0x55000000 ∷ []) 2
        ≡ Some Nand }
    ensures one_of_two { task_done (negsuc 50331648) (0x0F000000 ∷ 0x33000000 ∷ 0x55000000 ∷ []) 1
        ≡ None }
{}

#[tactic(auto, unfolding(merit_slices::specs::Slices::slices_of))]
pub fn slices_are_differences_of_quotients()
    ensures carried { slices_of (97 ∷ 97 ∷ 194 ∷ []) 30 ≡ 22 ∷ 23 ∷ 45 ∷ [] }
    ensures empty_cell { slices_of (0 ∷ 97 ∷ []) 30 ≡ 0 ∷ 30 ∷ [] }
    ensures empty_world { slices_of (0 ∷ 0 ∷ []) 30 ≡ 0 ∷ 0 ∷ [] }
{}
