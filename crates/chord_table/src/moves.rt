//! The kinds of step of the table. These types are for proofs alone: no value of them exists.

use crate::event::{Event, Numbered};
use crate::view::View;
use atomic_table::{Join, Play, Split};
use std::marker::PhantomData;

/// An event whose message, if any, is lost.
pub struct Local<E> {
    of: PhantomData<E>,
}

impl<E: Event> Play<u8, View> for Local<E> {
    ghost use Rattle.std.specs.Prelude.{◌≡◌};
    ghost use Rattle.chord_table.specs.Views.{with_actor};

    ghost then = { λ step me found new. new ≡ (with_actor E.actor me.0, me.1) };
}

/// A look, which proves that what the seat shows is true of some world.
pub struct Look;

impl Play<u8, View> for Look {
    ghost use Rattle.std.specs.Prelude.{◌≡◌};
    ghost use Rattle.chord_table.specs.Views.{IsTrueOfSome};

    ghost then = { λ step me found new. (new ≡ me) × IsTrueOfSome me.0 };
}

/// An event whose message goes out with a seat of its own.
pub struct Post<E> {
    of: PhantomData<E>,
}

impl<E: Event> Split<View> for Post<E> {
    ghost use Rattle.chord_table.specs.Seen.{Sent};
    ghost use Rattle.chord_table.specs.Views.{with_actor};

    ghost left = { with_actor E.actor };

    ghost right = { λ v. Sent E.message };
}

/// A new actor, with a seat of its own.
pub struct Admit<E> {
    of: PhantomData<E>,
}

impl<E: Event> Split<View> for Admit<E> {
    ghost use Rattle.std.specs.Prelude.{[]};
    ghost use Rattle.chord_table.specs.Seen.{Shown};
    ghost use Rattle.chord_table.specs.Views.{with_admitted};

    ghost left = { with_admitted E.actor };

    ghost right = { λ v. Shown E.actor [] };
}

/// A new witness of no caller, with a seat of its own.
pub struct Attend;

impl Play<u8, View> for Attend {
    ghost use Rattle.std.specs.Prelude.{◌≡◌, []};
    ghost use Rattle.chord_table.specs.Seen.{Witnessed};

    ghost then = { λ step me found new. new ≡ (Witnessed [], []) };
}

/// A copy of what a caller's seat shows, for a witness.
pub struct Testify;

impl Split<View> for Testify {
    ghost use Rattle.chord_table.specs.Views.{testimony};

    ghost left = { λ v. v };

    ghost right = { testimony };
}

/// One witness takes in another.
pub struct Gather;

impl Join<View> for Gather {
    ghost use Rattle.chord_table.specs.Seen.{Spent};
    ghost use Rattle.chord_table.specs.Views.{joined_witnesses};

    ghost both = { joined_witnesses };

    ghost spent = { Spent };
}

/// An actor takes in a message that was sent.
pub struct Receive;

impl Join<View> for Receive {
    ghost use Rattle.chord_table.specs.Seen.{Spent};
    ghost use Rattle.chord_table.specs.Views.{with_message};

    ghost both = { with_message };

    ghost spent = { Spent };
}

/// The registrar's seat takes in an actor's.
pub struct Take;

impl Join<View> for Take {
    ghost use Rattle.chord_table.specs.Seen.{Spent};
    ghost use Rattle.chord_table.specs.Views.{with_seat};

    ghost both = { with_seat };

    ghost spent = { Spent };
}

/// A new seat that shows nothing.
pub struct Vacate;

impl Play<u8, View> for Vacate {
    ghost use Rattle.std.specs.Prelude.{◌≡◌, []};
    ghost use Rattle.chord_table.specs.Seen.{Spent};

    ghost then = { λ step me found new. new ≡ (Spent, []) };
}

/// An actor's seat takes in another actor's.
pub struct Pair;

impl Join<View> for Pair {
    ghost use Rattle.chord_table.specs.Seen.{Spent};
    ghost use Rattle.chord_table.specs.Views.{paired};

    ghost both = { paired };

    ghost spent = { Spent };
}

/// A step of the ring at the first of two actors in one seat, which become two seats again.
pub struct Relink<E> {
    of: PhantomData<E>,
}

impl<E: Event> Split<View> for Relink<E> {
    ghost use Rattle.chord_table.specs.Views.{first_with, second_of};

    ghost left = { first_with E.actor };

    ghost right = { second_of };
}

/// A node retires, whose seat the registrar's took in with those of all others.
pub struct Retire<N> {
    of: PhantomData<N>,
}

impl<N: Numbered> Play<u8, View> for Retire<N> {
    ghost use Rattle.std.specs.Prelude.{◌≡◌};
    ghost use Rattle.chord_table.specs.Views.{with_retired_node};

    ghost then = { λ step me found new. new ≡ (with_retired_node N.number me.0, me.1) };
}

/// The registrar's seat gives back the last seat that it took in.
pub struct Give;

impl Split<View> for Give {
    ghost use Rattle.chord_table.specs.Views.{last_seat, without_last};

    ghost left = { without_last };

    ghost right = { last_seat };
}

/// A new seat that shows a principal.
pub struct Stand<N> {
    of: PhantomData<N>,
}

impl<N: Numbered> Split<View> for Stand<N> {
    ghost use Rattle.chord_table.specs.Seen.{Standing};

    ghost left = { λ v. v };

    ghost right = { λ v. Standing N.number };
}

/// One more seat that shows the same principal.
pub struct Again;

impl Split<View> for Again {
    ghost left = { λ v. v };

    ghost right = { λ v. v };
}

/// The registrar's seat takes in one that shows a principal.
pub struct Heed;

impl Join<View> for Heed {
    ghost use Rattle.chord_table.specs.Seen.{Spent};
    ghost use Rattle.chord_table.specs.Views.{with_principal};

    ghost both = { with_principal };

    ghost spent = { Spent };
}

/// A node crashes by force, whose seat the registrar's took in.
pub struct Break;

impl Play<u8, View> for Break {
    ghost use Rattle.std.specs.Prelude.{◌≡◌};
    ghost use Rattle.chord_table.specs.Views.{with_broken_node};

    ghost then = { λ step me found new. new ≡ (with_broken_node me.0, me.1) };
}

/// A node crashes, whose seat the registrar's took in with those of all others.
pub struct Crash<N> {
    of: PhantomData<N>,
}

impl<N: Numbered> Play<u8, View> for Crash<N> {
    ghost use Rattle.std.specs.Prelude.{◌≡◌};
    ghost use Rattle.chord_table.specs.Views.{with_crashed_node};

    ghost then = { λ step me found new. new ≡ (with_crashed_node N.number me.0, me.1) };
}
