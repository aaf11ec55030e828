// Fixed texts and rows of numbers, through a writer into a lent buffer. Document 01, "Command sheet".
#![tactic(auto)]

ghost use Rattle.text.specs.Text.{row};
ghost use Rattle.numerals.specs.Written.{HasRoom, AppendsText};

use numerals::TextWriter;

// A fixed text.
pub fn put_bytes(writer: &mut TextWriter<'_>, text: &[u8])
    requires { HasRoom writer.old text.now }
    ensures { AppendsText writer.old writer.new text.now }
{
    let start = writer.end;
    writer.end += text.len();
    let out = &mut *writer.out;
    out[start..writer.end].copy_from_slice(text);
}

// A line of numbers with commas between them.
#[inline(always)]
fn put_numbers(writer: &mut TextWriter<'_>, numbers: &[u64])
    requires { HasRoom writer.old (row numbers.now) }
    ensures { AppendsText writer.old writer.new (row numbers.now) }
{
    if let Some((&first, others)) = numbers.split_first() {
        writer.put_number(first);
        for &n in others {
            writer.put_byte(b',');
            writer.put_number(n);
        }
    }
    writer.put_byte(b'\n');
}

// The same through a writer of its own, which stays in registers over the whole line.
pub fn put_row(writer: &mut TextWriter<'_>, numbers: &[u64])
    requires { HasRoom writer.old (row numbers.now) }
    ensures { AppendsText writer.old writer.new (row numbers.now) }
{
    let mut line = TextWriter {
        out: &mut *writer.out,
        end: writer.end,
    };
    put_numbers(&mut line, numbers);
    writer.end = line.end;
}
