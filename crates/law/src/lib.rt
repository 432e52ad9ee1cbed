//! The law of the object core, over every run: what is so whatever calls are made on an opened core, in whatever order.
#![tactic(auto)]

ghost use Rattle.std.specs.Prelude.{◌≡◌, true};
ghost use Rattle.definition.specs.Death.{rests};
ghost use Rattle.law.specs.Events.{Every};
ghost use Rattle.law.specs.Law.{AllTell, Counted, HandBacksEnd, HoldsOfEveryRun, Lives, NothingLostOrKept, OfEveryRun, Tallied};
ghost use Rattle.law.specs.Places.{Named};
ghost use Rattle.law.specs.Run.{history};
ghost use Rattle.law.specs.Settings.{Set};

/// Nothing is lost and nothing is kept by mistake. While no turn is open, an object is made and not freed exactly if something
/// holds it: a handle of the host's, its mark, or a place of an unfreed object. What something holds is never freed.
pub fn nothing_is_lost_or_kept()
    ensures { OfEveryRun NothingLostOrKept }
{}

/// How objects live and die: when deaths start and turns open and end, what a del keeps, that nothing cleared is ever upgraded,
/// which references lose their callbacks and get turns and in which order, what goes before a free, and that deaths nest.
pub fn objects_live_and_die_in_order()
    ensures { OfEveryRun (λ es s. Every Lives (history es)) }
{}

/// What calls and replies tell of a run says what its state is: how many turns are open, which handles the host has, what is
/// interned, what is unfreed, and whether a host attends.
pub fn tallies_tell_the_state()
    ensures { OfEveryRun Tallied }
{}

/// After every call no work is left: nothing is dying, or the newest death waits for a hand back.
pub fn no_work_is_left()
    ensures { OfEveryRun (λ es s. rests s ≡ true) }
{}

/// After every step an object's count is the number of its references, the host's handles among them; what is live has one or is
/// interned, and what is not has none. As many turns are open as deaths wait for one, and the stack is of the dying.
pub fn counts_are_references()
    ensures { OfEveryRun (λ es s. Every (λ step before. Counted step.after) (history es)) }
{}

/// When only hand backs follow, no more are accepted than there are open turns, unfreed objects and callbacks held; after that
/// many no turn is open. While one is open, the newest is accepted with a list that has an entry for each unfreed object.
pub fn hand_backs_end()
    ensures { OfEveryRun (λ es s. HandBacksEnd s) }
{}

/// The births that a reply lists are those that its call's steps free, in order; the turn that it shows is the one that the last of
/// these steps opens, and no other step of the call opens any; a refused call changes nothing.
pub fn replies_tell_what_happened()
    ensures { OfEveryRun (λ es s. AllTell es) }
{}

/// A place of an object names what an accepted call last put there, until a death empties it.
pub fn places_name_what_was_put_there()
    ensures { OfEveryRun (λ es s. Every (λ step before. Named step.what step.before step.after) (history es)) }
{}

/// A host attends, and the class rows are, as the last accepted call that set them said; an object is, until it is freed, of the
/// class, kind, slots and referent that the call that made it said.
pub fn settings_are_what_calls_set()
    ensures { OfEveryRun (λ es s. Every (λ step before. Set step.what step.before step.after) (history es)) }
{}

/// The whole law, as one statement.
pub fn the_law_holds_of_every_run()
    ensures { HoldsOfEveryRun }
{}
