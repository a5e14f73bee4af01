// Layouts read, written and rewritten.
ghost use Rattle.std.specs.Prelude.{◌≡◌};
ghost use Rattle.layout.specs.Answers.{read_layout, read_number, read_slot, slot_read_number};
ghost use Rattle.capi_out.specs.Out.{out_answer, out_numbers};
ghost use Rattle.layout_write.specs.Writer.{slot_read_fields};
ghost use Rattle.capi_layout.specs.Layouts.{read_fields, rewrite_number, rewrite_left};
ghost use Rattle.capi_write.specs.Write.{write_number, write_values, write_answer, write_dest};

// Reads a layout: 8 numbers into fields.
pub fn lfsck_layout_read(layout: &[u8], fields: &mut [u64]) -> u32
    ensures answer { result ≡ out_answer (read_number (read_layout layout.now)) (read_fields (read_layout layout.now)) fields.old }
    ensures fields { fields.new ≡ out_numbers (read_number (read_layout layout.now)) (read_fields (read_layout layout.now)) fields.old }
{
    refusals::answer(capi_layout::layout_read(layout, fields))
}

// Reads slot `index` of a layout: 5 numbers into out.
pub fn lfsck_layout_slot(layout: &[u8], index: u64, out: &mut [u64]) -> u32
    ensures answer { result ≡ out_answer (slot_read_number (read_slot layout.now index)) (slot_read_fields (read_slot layout.now index)) out.old }
    ensures out { out.new ≡ out_numbers (slot_read_number (read_slot layout.now index)) (slot_read_fields (read_slot layout.now index)) out.old }
{
    refusals::answer(capi_layout::layout_slot(layout, index, out))
}

// Writes a layout of 7 fields, a pool name and slots of 5 numbers each; the bytes written into out.
pub fn lfsck_layout_write(
    fields: &[u64],
    pool: &[u8],
    slots: &[u64],
    dest: &mut [u8],
    out: &mut [u64],
) -> u32
    ensures answer { result ≡ write_answer fields.now pool.now slots.now dest.old out.old }
    ensures dest { dest.new ≡ write_dest fields.now pool.now slots.now dest.old out.old }
    ensures out { out.new ≡ out_numbers (write_number fields.now pool.now slots.now dest.old) (write_values fields.now) out.old }
{
    refusals::answer(capi_write::layout_write(fields, pool, slots, dest, out))
}

// Rewrites slot `index` of a layout in place, the slot as 5 numbers.
pub fn lfsck_slot_rewrite(layout: &mut [u8], index: u64, slot: &[u64]) -> u32
    ensures answer { result ≡ rewrite_number layout.old index slot.now }
    ensures layout { layout.new ≡ rewrite_left layout.old index slot.now }
{
    refusals::answer(capi_layout::slot_rewrite(layout, index, slot))
}
