// The fields of the list's lines, one after the other.
ghost use Rattle.std.specs.Prelude.{◌≤◌, IfSome, length};

// The fields that are left.
#[derive(Clone, Copy, Debug, PartialEq, Eq)]
pub struct Fields<'a> {
    rest: &'a [u8],
}

impl<'a> Fields<'a> {
    // The fields of some lines.
    pub fn of(lines: &'a [u8]) -> Fields<'a> {
        Fields { rest: lines }
    }

    // The next field.
    pub fn next(&mut self) -> &'a [u8]
        ensures { length self.new.rest.now ≤ length self.old.rest.now }
    {
        let list = self.rest;
        self.rest = &list[vector_list::field(list, 0).next..];
        &list[..vector_list::field_end(list, 0)]
    }

    // The next field's word.
    fn word(&mut self) -> Option<u64>
        ensures { length self.new.rest.now ≤ length self.old.rest.now }
    {
        let field = vector_list::field(self.rest, 0);
        self.rest = &self.rest[field.next..];
        field.word
    }

    // The next field's number, if it has one that is not negative; else the greatest.
    pub fn unsigned(&mut self) -> u32
        ensures { length self.new.rest.now ≤ length self.old.rest.now }
    {
        vector_list::unsigned(self.word())
    }

    // The next field's coordinate.
    pub fn signed(&mut self) -> i32
        ensures { length self.new.rest.now ≤ length self.old.rest.now }
    {
        vector_list::signed(self.word())
    }

    // Whether the next field is 1.
    pub fn flag(&mut self) -> bool
        ensures { length self.new.rest.now ≤ length self.old.rest.now }
    {
        self.unsigned() == 1
    }

    // Goes on where a comparison says, if the field is as it should be.
    fn follow(&mut self, next: Option<usize>) -> bool
        requires { IfSome next (λ n. n ≤ length self.old.rest.now) }
        ensures { length self.new.rest.now ≤ length self.old.rest.now }
    {
        match next {
            Some(n) => {
                self.rest = &self.rest[n..];
                true
            }
            None => false,
        }
    }

    // Whether the next field is the number v.
    pub fn number_is(&mut self, v: u32) -> bool
        ensures { length self.new.rest.now ≤ length self.old.rest.now }
    {
        let next = vector_list::number_is(self.rest, 0, v);
        self.follow(next)
    }

    // Whether the next field is the coordinate u, counted from -2^31.
    pub fn step_is(&mut self, u: u32) -> bool
        ensures { length self.new.rest.now ≤ length self.old.rest.now }
    {
        let next = vector_list::step_is(self.rest, 0, u);
        self.follow(next)
    }

    // Whether the next field is the byte b.
    pub fn byte_is(&mut self, b: u8) -> bool
        ensures { length self.new.rest.now ≤ length self.old.rest.now }
    {
        let next = vector_list::byte_is(self.rest, 0, b);
        self.follow(next)
    }

    // Whether no field is left.
    pub fn is_empty(&self) -> bool {
        self.rest.is_empty()
    }
}
