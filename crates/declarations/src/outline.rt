// Where the parts of a table's routines stand, of any numbers, and of a table whose statement counts add up.
ghost use Rattle.std.specs.Prelude.{◌≡◌};
ghost use Rattle.table.specs.Lists.{StatementsBegin, HandlesBegin, ParametersCounted};
ghost use Rattle.declarations.specs.Laid.{Measured};

// Where each routine's statements and handles begin, and how many parameters it has: three lists, since most functions look one of them up, at a routine and
// the next.
#[derive(Clone, Copy)]
pub struct Extents {
    pub first: [usize; 33],
    pub handle: [usize; 33],
    pub counts: [usize; 32],
}

impl Extents {
    // Of any numbers. Each list is filled where it stands: made apart and moved in, it would be copied three times.
    pub fn of(numbers: &[i32]) -> Extents
        ensures { Measured numbers.now result }
    {
        let mut extents = Extents {
            first: [0; 33],
            handle: [0; 33],
            counts: [0; 32],
        };
        super::fill_first_statements(numbers, &mut extents.first);
        super::fill_first_handles(numbers, &mut extents.handle);
        super::fill_parameter_counts(numbers, &extents.handle, &mut extents.counts);
        extents
    }
}

// The numbers of a table whose statement counts add up, with its extents.
#[derive(Clone, Copy)]
pub struct Outline<'a> {
    pub numbers: &'a [i32],
    pub extents: &'a Extents,
    pub ghost statements_begin: { StatementsBegin numbers.now extents.now.first },
    pub ghost handles_begin: { HandlesBegin numbers.now extents.now.handle },
    pub ghost parameters_counted: { ParametersCounted numbers.now extents.now.counts },
}
