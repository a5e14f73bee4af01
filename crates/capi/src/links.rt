// LinkEA values read and written.
ghost use Rattle.std.specs.Prelude.{◌≡◌};
ghost use Rattle.linkea.specs.Answers.{read_link, reading_number, read_record, record_number};
ghost use Rattle.capi_out.specs.Out.{out_answer, out_numbers};
ghost use Rattle.capi_link.specs.Links.{read_fields, record_fields, write_answer, write_dest, write_out};

// Reads a linkEA: 4 numbers into out.
pub fn lfsck_link_read(link: &[u8], out: &mut [u64]) -> u32
    ensures answer { result ≡ out_answer (reading_number (read_link link.now)) (read_fields (read_link link.now)) out.old }
    ensures out { out.new ≡ out_numbers (reading_number (read_link link.now)) (read_fields (read_link link.now)) out.old }
{
    refusals::answer(capi_link::link_read(link, out))
}

// Reads the record at a place of a linkEA: 6 numbers into out.
pub fn lfsck_link_record(link: &[u8], place: u64, out: &mut [u64]) -> u32
    ensures answer { result ≡ out_answer (record_number (read_record link.now place)) (record_fields (read_record link.now place)) out.old }
    ensures out { out.new ≡ out_numbers (record_number (read_record link.now place)) (record_fields (read_record link.now place)) out.old }
{
    refusals::answer(capi_link::link_record(link, place, out))
}

// Writes a linkEA of 4 fields and records of 5 numbers each, whose names lie in the bytes lent; the bytes written into out.
pub fn lfsck_link_write(
    fields: &[u64],
    records: &[u64],
    names: &[u8],
    dest: &mut [u8],
    out: &mut [u64],
) -> u32
    ensures answer { result ≡ write_answer fields.now records.now names.now dest.old out.old }
    ensures dest { dest.new ≡ write_dest fields.now records.now names.now dest.old out.old }
    ensures out { out.new ≡ write_out fields.now records.now names.now dest.old out.old }
{
    refusals::answer(capi_link::link_write(fields, records, names, dest, out))
}
