// A number of contacts.
ghost use Rattle.std.specs.Prelude.{◌≤◌};

use faults::SheetFault;

// From 1 to 32 contacts.
#[derive(Clone, Copy)]
pub struct ContactCount {
    pub contacts: u8,
    pub ghost some_contact: { 1 ≤ contacts },
    pub ghost few_contacts: { contacts ≤ 32 },
}

impl ContactCount {
    ghost use Rattle.solver.specs.Count.{Counted};

    // Refuses unless there are 1 to 32 contacts.
    pub fn new(contacts: usize) -> Result<Self, SheetFault>
        ensures counted { Counted contacts result }
    {
        if contacts < 1 || contacts > 32 {
            return Err(SheetFault::WrongContacts);
        }
        Ok(ContactCount {
            contacts: contacts as u8,
        })
    }
}
