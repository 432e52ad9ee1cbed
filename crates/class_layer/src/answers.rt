ghost use Rattle.std.specs.Prelude.{◌≡◌};
ghost use Rattle.class_layer.specs.Layer.{answer_in, with_answer, no_answers};

/// What find del answered for a class. A free place has 0 for both, which is right too: 0 is no class and has no del.
// So no `Option`: a free place answers rightly.
#[derive(Clone, Copy, Debug)]
pub struct Answer {
    class: u32,
    del: u32,
}

/// Up to 16 answers.
// No `ArrayVec`: all 16 places are there from the start, and a free one answers rightly for class 0.
#[derive(Clone, Copy, Debug)]
pub struct Answers {
    kept: [Answer; 16],
    /// Where the next is put, once all places are taken in place of the oldest.
    next: usize,
}

impl Answers {
    /// All places free.
    pub fn none() -> Answers
        ensures { result ≡ no_answers }
    {
        Answers {
            kept: [Answer { class: 0, del: 0 }; 16],
            next: 0,
        }
    }

    /// The answer that is kept for a class.
    pub fn look_up(&self, class: u32) -> Option<u32>
        ensures { result ≡ answer_in self.now class }
    {
        self.kept
            .iter()
            .find(|answer| answer.class == class)
            .map(|answer| answer.del)
    }

    /// Puts one answer more in, in place of the oldest.
    pub fn keep(&mut self, class: u32, del: u32)
        ensures { self.new ≡ with_answer self.old class del }
    {
        let place = self.next % 16;
        self.kept[place] = Answer { class, del };
        self.next = (place + 1) % 16;
    }

    /// Frees all places.
    pub fn forget(&mut self)
        ensures { self.new ≡ no_answers }
    {
        *self = Answers::none();
    }
}
