// A number between two words, appended to a page: what most of the programs' lines are made of.
// The three are written whole or not at all, and are the definition's to the byte: specs/Text.antt, specs/Page.antt.
ghost use Rattle.std.specs.Prelude.{◌-◌, ◌≡◌, ◌++◌, length};
ghost use Rattle.text.specs.Text.{decimal};
ghost use Rattle.text.specs.Page.{Writes};

use crate::page::Page;

impl Page<'_> {
    // A word, a number in base ten and a word.
    pub fn append_numbered(&mut self, before: &[u8], number: u64, behind: &[u8])
        ensures { Writes (before.now ++ decimal number ++ behind.now) self.old self.new }
    {
        if self.left(before.len(), behind.len()) < crate::digits::width(number) {
            return;
        }
        self.append(before);
        self.append_decimal(number);
        self.append(behind);
    }

    // How many bytes two words leave.
    pub(crate) fn left(&self, before: usize, behind: usize) -> usize
        ensures { result ≡ length self.now.out.now - self.now.at - before - behind }
    {
        self.room().saturating_sub(before).saturating_sub(behind)
    }
}
