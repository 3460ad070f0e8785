// Path reading without the machine: going back from the goal over passage numbers, and writing the states met, start
// first, into the part of a buffer that is lent for them.
#![tactic(auto)]

ghost use Rattle.std.specs.Prelude.{◌≡◌, [], ◌++◌, ◌≤◌, ◌<◌, length, get_or, drop};
ghost use Rattle.rule.specs.Task.{passage_count};
ghost use Rattle.trail.specs.Trail.{is_home, is_linked, path, step_back};
ghost use Rattle.trail.specs.Seen.{counted, seen};
ghost use Rattle.trail.specs.Laws.{Inside, Followed, states_back};

use rule::Passage;

// What going back reads: how many states there are, the start and the goal, the passages, and each state's label with the
// number of the passage that the label came by.
#[derive(Clone, Copy)]
pub struct Trail<'a> {
    pub n: usize,
    pub start: usize,
    pub goal: usize,
    pub passages: &'a [u32],
    pub label: &'a [u32; 256],
    pub via: &'a [u16; 256],
}

// s, with this label, is the start with label 0.
#[tactic(auto, unfolding(crate::specs::Trail::is_home))]
pub fn is_home(start: usize, s: usize, label: u32) -> bool
    ensures { result ≡ is_home start s label }
{
    s == start && label == 0
}

impl Trail<'_> {
    // The state that the passage of s comes from.
    pub fn came_from(&self, s: usize) -> usize
        requires { (s < 256) × (get_or self.now.via.now s 0 < passage_count self.now.passages.now) }
        ensures { result ≡ step_back self.now.passages.now self.now.via.now s }
    {
        Passage::read(self.passages, usize::from(self.via[s])).near
    }

    // The passage that s came by is one, isn't blocked, ends at s, and its cost is what the labels differ by.
    #[tactic(auto, unfolding(crate::specs::Trail::is_linked, rule::specs::Task::is_clear))]
    pub fn is_linked(&self, s: usize) -> bool
        requires { Inside self.now.passages.now × (s < 256) }
        ensures { result ≡ is_linked self.now.passages.now self.now.label.now self.now.via.now s }
    {
        let i = usize::from(self.via[s]);
        if i >= self.passages.len() / 3 {
            return false;
        }
        let passage = Passage::read(self.passages, i);
        passage.is_clear()
            && passage.far == s
            && rule::adds_up(self.label[s], self.label[passage.near], passage.cost)
    }

    // How many states the path has; none where going back fails.
    pub fn path_length(&self) -> Option<usize>
        requires { Inside self.now.passages.now × ((self.now.goal < 256) × (self.now.n ≤ 256)) }
        ensures { result ≡ counted (length (path (seen self.now))) }
    {
        let mut s = self.goal;
        // So many steps at most; no slice is gone over.
        for i in 0..self.n {
            if is_home(self.start, s, self.label[s]) {
                return Some(i + 1);
            }
            if !self.is_linked(s) {
                return None;
            }
            s = self.came_from(s);
        }
        None
    }

    // The first count states back from the goal, into the first places of part, the goal at the last of them.
    pub fn write_back(&self, part: &mut [u16], count: usize)
        requires { Followed self.now.passages.now self.now.via.now count self.now.goal × (count ≤ length part.old) }
        ensures { part.new ≡ states_back self.now.passages.now self.now.via.now count self.now.goal [] ++ drop count part.old }
    {
        let mut s = self.goal;
        part[count - 1] = s as u16;
        // No `iter_mut().rev()`: the prover doesn't see what is written through it.
        for i in (0..count - 1).rev() {
            s = self.came_from(s);
            part[i] = s as u16;
        }
    }
}
