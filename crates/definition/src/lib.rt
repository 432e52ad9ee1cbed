//! The definition of the object core.
#![tactic(auto)]

ghost use Rattle.std.specs.Prelude.{◌≡◌, true, Some, None};
ghost use Rattle.refusal.specs.declared.Refusal.TheVariants.{BadTable};
ghost use Rattle.definition.specs.Opening.{can_open, opening_refusal};
ghost use Rattle.definition.specs.Runs.{after_all, answers};
ghost use Rattle.definition.specs.Examples.{table, fresh, entries, replies, worked, slots, twice, inherited, held, filled, seventeen, death, hasty_death};

/// What the definition answers to the calls of some worked examples (`specs/Examples.antt`), on a core that has just been opened.
pub fn worked_examples()
    ensures can_be_opened { can_open 256 1 table ≡ true }
    ensures as_docs_say { answers (entries worked) fresh ≡ replies worked }
    ensures places_4096 { opening_refusal 4096 1 table ≡ None }
    ensures places_4097 { opening_refusal 4097 1 table ≡ Some (record { refusal = BadTable; argument = 0 }) }
    ensures slot_past_the_last { answers (entries slots) fresh ≡ replies slots }
    ensures only_class_1_is_cached { answers (entries twice) fresh ≡ replies twice }
    ensures del_of_an_ancestor { answers (entries inherited) fresh ≡ replies inherited }
    ensures count_full { answers (entries filled) (after_all (held 65533) fresh) ≡ replies filled }
    ensures seventeen_turns { answers (entries death) (after_all seventeen fresh) ≡ replies death }
    ensures oldest_has_no_turn { answers (entries hasty_death) (after_all seventeen fresh) ≡ replies hasty_death }
{}
