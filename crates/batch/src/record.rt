// A record of a batch: the type and offset of an object, and where its payload stands in the lent buffer.
ghost use Rattle.std.specs.Prelude.{◌≡◌, ◌+◌, ◌*◌, ◌≤◌, length};
ghost use Rattle.batch.specs.Batch.{per_record, batch_record_at};

#[derive(Clone, Copy, Debug, PartialEq, Eq)]
pub struct Record {
    pub kind: u32,
    pub offset: u32,
    pub start: u32,
    pub length: u32,
}

impl Record {
    // How many numbers a record has.
    pub(crate) const LENGTH: usize = 4;

    // Record i of a list.
    pub(crate) fn at(records: &[u32], i: u32) -> Record
        requires { per_record * (i + 1) ≤ length records.now }
        ensures { result ≡ batch_record_at records.now i }
    {
        let from = Self::LENGTH * (i as usize);
        Record {
            kind: records[from],
            offset: records[from + 1],
            start: records[from + 2],
            length: records[from + 3],
        }
    }
}
