// Lines. A line takes at most 50 bytes, a path line at most 8,192.
ghost use Rattle.std.specs.Prelude.{◌≡◌, ◌++◌, ◌≤◌, length};
ghost use Rattle.report.specs.Line.{numbers, line_of, path_line};
ghost use Rattle.report.specs.PageLaws.{Room, WrittenIn};
ghost use Rattle.report.specs.Laws.{PathFits};

use super::page::Page;
use desk::Reply;

impl Page<'_> {
    // A word, and one number or two.
    pub fn line(&mut self, word: &[u8], values: &[u64])
        requires { (length word.now ≤ 7) × ((length values.now ≤ 2) × Room 50 self.old) }
        ensures { WrittenIn 50 (word.now ++ numbers values.now) self.old self.new }
    {
        self.word(word);
        for &value in values {
            self.number(value);
        }
        self.byte(b'\n');
    }

    // The line of a reply to a worker.
    pub fn reply(&mut self, worker: u64, reply: Reply)
        requires { Room 50 self.old }
        ensures { WrittenIn 50 (line_of worker reply) self.old self.new }
    {
        match reply {
            Reply::Took(s) => self.line(b"took", &[worker, u64::from(s)]),
            Reply::Brought(many) => self.line(b"brought", &[worker, u64::from(many)]),
            Reply::Found(cost) => self.line(b"found", &[worker, u64::from(cost)]),
            Reply::NoPath => self.line(b"nopath", &[worker]),
            Reply::Wait(s) => self.line(b"wait", &[worker, u64::from(s)]),
            Reply::Refused(refusal) => {
                self.line(b"refused", &[worker, u64::from(u8::from(refusal))]);
            }
            Reply::Opened | Reply::Read(_) | Reply::Done | Reply::Cut(_) => {}
        }
    }

    // A path line, where path reading replied with a path.
    pub fn path(&mut self, states: &[u16; 256], reply: Reply)
        requires { PathFits reply × Room 8192 self.old }
        ensures { WrittenIn 8192 (path_line states.now reply) self.old self.new }
    {
        if let Reply::Read(many) = reply {
            self.word(b"path");
            for &s in &states[..usize::from(many)] {
                self.number(u64::from(s));
            }
            self.byte(b'\n');
        }
    }
}
