// How many variables a clause text has, and how many of them are contacts.
ghost use Rattle.std.specs.Prelude.{◌+◌, ◌≤◌};

use faults::SheetFault;

// The contacts come first, the inner variables above them.
#[derive(Clone, Copy)]
pub struct VariableCounts {
    pub contacts: u8,
    pub inner: u8,
    pub ghost some_contact: { 1 ≤ contacts },
    pub ghost few_contacts: { contacts ≤ 32 },
    pub ghost few_variables: { contacts + inner ≤ 64 },
}

impl VariableCounts {
    ghost use Rattle.std.specs.Prelude.{◌≡◌};
    ghost use Rattle.clauses.specs.Clauses.{Counted};

    // Refuses unless there are 1 to 32 contacts and at most 64 variables, the contacts among them.
    pub fn new(variables: usize, contacts: usize) -> Result<Self, SheetFault>
        ensures counted { Counted variables contacts result }
    {
        if contacts < 1 || contacts > 32 || contacts > variables || variables > 64 {
            return Err(SheetFault::WrongContacts);
        }
        Ok(VariableCounts {
            contacts: contacts as u8,
            inner: (variables - contacts) as u8,
        })
    }

    // The number of contacts and inner variables.
    pub fn variables(self) -> u8
        ensures sum { result ≡ self.contacts + self.inner }
    {
        self.contacts + self.inner
    }
}
