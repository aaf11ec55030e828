// Reading a command sheet as a whole, numbers 1 to 3. Each function returns a definition of text's specs/Text.antt,
// specs/Forms.antt and specs/Sheet.antt. Document 01, "Command sheet".
#![tactic(auto)]

ghost use Rattle.std.specs.Prelude.{◌≡◌, ◌≤◌, length};
ghost use Rattle.text.specs.Text.{line_end, parts};
ghost use Rattle.text.specs.Forms.{head_verdict};
ghost use Rattle.text.specs.Sheet.{body_verdict, sheet_verdict};

use text::SheetRefusal;

// The first line of a command sheet, its line end included.
const FIRST_LINE: [u8; 19] = *b"op,a,b,c,d,e,f,g,h\n";

// The value lines, of which the first is line 2.
#[tactic(auto, using(crate::proofs::Body::line_on, crate::proofs::Body::line_refused, crate::proofs::Body::end_inside))]
fn check_body(s: &[u8]) -> Result<(), SheetRefusal>
    requires { length s.now ≤ 65536 }
    ensures { result ≡ body_verdict 2 (parts line_end s.now) }
{
    let mut rest = s;
    let mut line = 2;
    while !rest.is_empty() {
        let Some(end) = lines::line_end(rest) else {
            return Err(SheetRefusal::ValueLine(line));
        };
        rest = &rest[end + 1..];
        line += 1;
    }
    Ok(())
}

// A sheet of any form: 1 over 65,536 bytes, 2 another first line.
#[tactic(auto, using(crate::proofs::Head::same_start), unfolding(text::specs::Forms::head_verdict))]
pub fn check_head(s: &[u8], first: &[u8]) -> Result<(), SheetRefusal>
    ensures { result ≡ head_verdict first.now s.now }
{
    if 65536 < s.len() {
        return Err(SheetRefusal::TooLong);
    }
    if !s.starts_with(first) {
        return Err(SheetRefusal::FirstLine);
    }
    Ok(())
}

// The whole command sheet: 1 and 2, and 3 a value line of another form.
#[tactic(auto, using(crate::proofs::Head::head_passed, crate::proofs::Head::by_head))]
pub fn check_sheet(s: &[u8]) -> Result<(), SheetRefusal>
    ensures { result ≡ sheet_verdict s.now }
{
    check_head(s, &FIRST_LINE)?;
    check_body(&s[FIRST_LINE.len()..])
}
