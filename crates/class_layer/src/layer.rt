ghost use Rattle.std.specs.Prelude.{◌≡◌, MatchResult};
ghost use Rattle.classes.specs.Rows.{find_del, set_del, after_set_del};
ghost use Rattle.class_layer.specs.Layer.{no_answers, after_find};

use crate::answers::Answers;
use classes::{ClassTable, Entries};
use refusal::Fault;
use std::marker::Model;

/// A class table that remembers what the table below it answered.
#[derive(Drop)]
pub struct Remembering<T: ClassTable> {
    below: T,
    answers: Answers,
}

impl<T: ClassTable> Model for Remembering<T> {
    ghost use Rattle.class_layer.specs.Layer.{Layer, Right};

    ghost Value = { Layer T };

    ghost view = { λ layer. record { below = layer.below; answers = layer.answers } };

    ghost invariant = { λ layer. Right (T.rows layer.below) layer.answers.kept };
}

impl<T: ClassTable> Remembering<T> {
    /// A layer that remembers nothing yet.
    pub fn new(below: T) -> Remembering<T>
        ensures below { result.below ≡ below }
        ensures answers { result.answers ≡ no_answers }
    {
        Remembering {
            below,
            answers: Answers::none(),
        }
    }

    /// The table below, without the layer.
    pub fn into_below(self) -> T
        ensures { result ≡ self.below }
    {
        let Remembering { below, .. } = self;
        below
    }
}

impl<T: ClassTable> ClassTable for Remembering<T> {
    ghost rows = { λ layer. T.rows layer.below };

    // `last`, `entries` and `ancestor` are passed on one by one: Rust has no shorter form for it.
    fn last(&self) -> u32 {
        self.below.last()
    }

    fn entries(&self, class: u32) -> Entries {
        self.below.entries(class)
    }

    fn ancestor(&self, class: u32, position: usize) -> u32 {
        self.below.ancestor(class, position)
    }

    fn find_del(&mut self, class: u32) -> u32
        ensures value { result ≡ find_del (T.rows self.old.below) class }
        ensures same { T.rows self.new.below ≡ T.rows self.old.below }
        ensures answers { self.new.answers ≡ after_find self.old.answers class result }
    {
        if let Some(del) = self.answers.look_up(class) {
            return del;
        }
        let del = self.below.find_del(class);
        self.answers.keep(class, del);
        del
    }

    fn set_del(&mut self, class: u32, del: bool) -> Result<(), Fault>
        ensures reply { result ≡ set_del (T.rows self.old.below) class }
        ensures after { T.rows self.new.below ≡ after_set_del (T.rows self.old.below) class del }
        ensures answers { MatchResult result (λ _. self.new.answers ≡ no_answers) (λ _. self.new.answers ≡ self.old.answers) }
    {
        self.below.set_del(class, del)?;
        self.answers.forget();
        Ok(())
    }
}
