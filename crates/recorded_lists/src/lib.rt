//! Lists of calls to which the definition gives the answers that rustpython-vm 0.4.0 gave.
#![tactic(auto)]

ghost use Rattle.std.specs.Prelude.{◌≡◌, true, ◌&&◌};
ghost use Rattle.definition.specs.Opening.{can_open, opening, opening_refusal};
ghost use Rattle.definition.specs.Runs.{answers};
ghost use Rattle.recorded_lists.specs.Lists.{cached_reference, cached_reference_answers, cached_reference_dying, cached_reference_dying_answers, callback_goes_last, callback_goes_last_answers, callback_is_the_referent, callback_is_the_referent_answers, class_1_cached_class_5_not, class_1_cached_class_5_not_answers, deaths_in_deaths, deaths_in_deaths_answers, del_of_an_ancestor, del_of_an_ancestor_answers, del_set_and_taken, del_set_and_taken_answers, dictionaries, dictionaries_answers, dying_cannot_be_named, dying_cannot_be_named_answers, handles_counted_from_the_left, handles_counted_from_the_left_answers, kept_in_a_slot, kept_in_a_slot_answers, marks, marks_answers, no_host, no_host_answers, no_room_while_dying, no_room_while_dying_answers, no_such_place, no_such_place_answers, order_of_frees, order_of_frees_answers, payloads, payloads_answers, references_dropped_in_a_round, references_dropped_in_a_round_answers, rounds_of_sixteen, rounds_of_sixteen_answers, turns_in_turns, turns_in_turns_answers, worked_example, worked_example_answers, too_many_places_refusal};
ghost use Rattle.recorded_lists.specs.Rows.{runner_rows, wide_rows};

/// Each list, on a core opened with these places, first birth and class rows: the definition answers line by line what
/// rustpython-vm 0.4.0 answered, recorded with a runner built around its object core.
pub fn the_definition_answers_as_recorded()
    ensures worked_example { answers worked_example (opening 256 1 runner_rows) ≡ worked_example_answers }
    ensures deaths_in_deaths { answers deaths_in_deaths (opening 256 1 runner_rows) ≡ deaths_in_deaths_answers }
    ensures turns_in_turns { answers turns_in_turns (opening 256 1 runner_rows) ≡ turns_in_turns_answers }
    ensures del_of_an_ancestor { answers del_of_an_ancestor (opening 256 1 runner_rows) ≡ del_of_an_ancestor_answers }
    ensures del_set_and_taken { answers del_set_and_taken (opening 256 1 wide_rows) ≡ del_set_and_taken_answers }
    ensures kept_in_a_slot { answers kept_in_a_slot (opening 256 1 runner_rows) ≡ kept_in_a_slot_answers }
    ensures order_of_frees { answers order_of_frees (opening 256 1 runner_rows) ≡ order_of_frees_answers }
    ensures payloads { answers payloads (opening 256 1 runner_rows) ≡ payloads_answers }
    ensures dictionaries { answers dictionaries (opening 256 1 runner_rows) ≡ dictionaries_answers }
    ensures cached_reference { answers cached_reference (opening 256 1 runner_rows) ≡ cached_reference_answers }
    ensures cached_reference_dying { answers cached_reference_dying (opening 256 1 runner_rows) ≡ cached_reference_dying_answers }
    ensures class_1_cached_class_5_not { answers class_1_cached_class_5_not (opening 256 1 runner_rows) ≡ class_1_cached_class_5_not_answers }
    ensures callback_goes_last { answers callback_goes_last (opening 256 1 runner_rows) ≡ callback_goes_last_answers }
    ensures callback_is_the_referent { answers callback_is_the_referent (opening 256 1 runner_rows) ≡ callback_is_the_referent_answers }
    ensures references_dropped_in_a_round { answers references_dropped_in_a_round (opening 256 1 runner_rows) ≡ references_dropped_in_a_round_answers }
    ensures rounds_of_sixteen { answers rounds_of_sixteen (opening 256 1 runner_rows) ≡ rounds_of_sixteen_answers }
    ensures no_host { answers no_host (opening 256 1 runner_rows) ≡ no_host_answers }
    ensures marks { answers marks (opening 256 1 runner_rows) ≡ marks_answers }
    ensures dying_cannot_be_named { answers dying_cannot_be_named (opening 256 1 runner_rows) ≡ dying_cannot_be_named_answers }
    ensures handles_counted_from_the_left { answers handles_counted_from_the_left (opening 256 1 runner_rows) ≡ handles_counted_from_the_left_answers }
    ensures no_such_place { answers no_such_place (opening 256 1 wide_rows) ≡ no_such_place_answers }
    ensures no_room_while_dying { answers no_room_while_dying (opening 3 1 runner_rows) ≡ no_room_while_dying_answers }
    ensures too_many_places { opening_refusal 4097 1 runner_rows ≡ too_many_places_refusal }
    ensures opened { can_open 256 1 runner_rows && (can_open 256 1 wide_rows && can_open 3 1 runner_rows) ≡ true }
{}
