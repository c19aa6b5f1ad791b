// The collection page: a line for each farm, from names and litres that are handed in (B1 to B5).
#![tactic(auto)]

ghost use Rattle.std.specs.Prelude.{◌≡◌, ◌+◌, ◌≤◌, length, drop};
ghost use Rattle.std.specs.List.{position};
ghost use Rattle.text.specs.Adds.{Adds};
ghost use Rattle.page.specs.Names as spec;
ghost use Rattle.page.specs.Names.{names_of};
ghost use Rattle.page.specs.Failures.{numbered};
ghost use Rattle.page.specs.Page.{farm_line, page_of, answer_of, PageCalled};
ghost use Rattle.page.specs.PageLaws.{PageLaws};
ghost use Rattle.page.specs.Readings.{is_other, length_of, sized, farm_of, fitted_of, Sound};

use text::Text;

mod failure;

pub use failure::Failure;

// The bytes of a line.
const LINE: usize = 31;

const MOST_FARMS: usize = 1000;

const MOST_LITRES: u16 = 32767;

const LONGEST_NAME: usize = 14;

fn is_printable(byte: u8) -> bool
    ensures { result ≡ spec.is_printable byte }
{
    32 <= byte && byte <= 126
}

// Where the first byte is that no name may have.
fn first_other(text: &[u8]) -> Option<usize>
    ensures { result ≡ position is_other text.now }
{
    text.iter().position(|b| !is_printable(*b))
}

// The length of the first name, if it is as it should be (F25). Nothing is read behind the first byte that no name may have.
fn first_length(names: &[u8]) -> Option<usize>
    ensures { result ≡ sized (length_of (names_of names.now)) }
{
    let end = first_other(names)?;
    if names[end] != b'\n' {
        return None;
    }
    if end == 0 {
        return None;
    }
    if LONGEST_NAME < end {
        return None;
    }
    Some(end)
}

// The same of the name that begins at an offset.
fn name_length(names: &[u8], from: usize) -> Option<usize>
    requires { from ≤ length names.now }
    ensures { result ≡ sized (length_of (names_of (drop from names.now))) }
{
    first_length(&names[from..])
}

// What is wrong with a farm, by its litres and the length of its name, or that length (F24, F25).
fn check_farm(litres: u16, size: Option<usize>) -> Result<usize, Failure>
    ensures { numbered result ≡ farm_of litres size }
{
    if MOST_LITRES < litres {
        return Err(Failure::BadLitres);
    }
    match size {
        Some(size) => Ok(size),
        None => Err(Failure::BadName),
    }
}

// The page's length for farms that have nothing wrong, by their number and the bytes of the output (F26).
fn fitted(farms: usize, room: usize) -> Result<usize, Failure>
    ensures { numbered result ≡ fitted_of farms room }
{
    if farms <= MOST_FARMS && LINE * farms <= room {
        return Ok(LINE * farms);
    }
    Err(Failure::BadLists)
}

// First each farm that has a name and litres, then the lists (J14).
#[tactic(auto, using(crate::proofs::FarmLaws::for_judge, crate::proofs::Judging::for_judge))]
fn judge(names: &[u8], litres: &[u16], room: usize) -> Result<usize, Failure>
    ensures { numbered result ≡ answer_of names.now litres.now room }
{
    let mut from = 0;
    for &delivered in litres {
        if names.len() <= from {
            return Err(Failure::BadLists);
        }
        let size = check_farm(delivered, name_length(names, from))?;
        from += size + 1;
    }
    if from < names.len() {
        Err(Failure::BadLists)
    } else {
        fitted(litres.len(), room)
    }
}

fn put_line(text: &mut Text<'_>, name: &[u8], litres: u16, total: usize)
    ensures { Adds text.old text.new (farm_line name.now litres total) }
{
    text.left(14, name);
    text.put(b" ");
    text.right(6, litres as usize);
    text.put(b" ");
    text.right(8, total);
    text.put(b"\n");
}

// The total with a farm's litres.
fn carried(total: usize, litres: u16) -> usize
    requires { total ≤ 32767000 }
    ensures { result ≡ total + litres }
{
    total + litres as usize
}

// The lines of farms that have nothing wrong.
fn put_lines(text: &mut Text<'_>, names: &[u8], litres: &[u16])
    requires { Sound (names_of names.now) litres.now × (length litres.now ≤ 1000) }
    ensures { Adds text.old text.new (page_of names.now litres.now) }
{
    let mut from = 0;
    let mut total = 0;
    for &delivered in litres {
        let end = from + name_length(names, from).unwrap_or(0);
        total = carried(total, delivered);
        put_line(text, &names[from..end], delivered, total);
        from = end + 1;
    }
}

// Makes the page at the start of the output, and answers its length; where it fails, the output stays as it was (B5).
#[tactic(auto, using(crate::proofs::Judging::for_page))]
pub fn page(names: &[u8], litres: &[u16], output: &mut [u8]) -> Result<usize, Failure>
    ensures { PageCalled names.now litres.now output.old result output.new }
{
    let answer = judge(names, litres, output.len());
    let made = answer.is_ok();
    if made {
        put_lines(&mut Text::new(output), names, litres);
    }
    answer
}

// Pages show what was handed in: this function carries the theorem as its contract.
pub fn page_laws()
    ensures { PageLaws }
{}
