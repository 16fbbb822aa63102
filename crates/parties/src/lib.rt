// The entry of a party, with its code and the map of its access. The promise is an equation with the rules, whatever the cells hold.
#![tactic(auto)]

ghost use Rattle.std.specs.Prelude.{◌≡◌, ◌||◌, not, [], ◌∷◌, ◌++◌, nat_lt, ◌==◌};
ghost use Rattle.rules.specs.Calls.{AddParty};
ghost use Rattle.rules.specs.Codes.{is_code};
ghost use Rattle.rules.specs.Setup.{code_taken};
ghost use Rattle.cells.specs.View.{book_of, party_read};
ghost use Rattle.answers.specs.Promises.{Judged, Answers};
ghost use Rattle.parties.specs.Work.{same_code};

use cells::Book;
use rules::{Answer, Refusal};

// A party: its code, and the map of its access, bit o for operator o.
#[derive(Clone, Copy)]
pub struct Party {
    pub code: [u8; 16],
    pub access: u8,
}

impl Party {
    // Its cells: the code and the access map.
    fn row(self) -> [u32; 17]
        ensures { result ≡ self.code ++ (self.access ∷ []) }
    {
        let mut row = [0u32; 17];
        row[..16].copy_from_slice(&self.code.map(|byte| byte as u32));
        row[16] = self.access as u32;
        row
    }
}

fn party_field(party: Party) -> bool
    ensures { result ≡ (party.access == 0 || nat_lt 127 party.access || not (is_code party.code)) }
{
    if party.access == 0 || party.access > 127 {
        return true;
    }
    !eic::is_party_code(party.code)
}

// Cells are wider than the bytes of a code, so no `==` of the two.
fn same_code(row: &[u32; 17], code: [u8; 16]) -> bool
    ensures { result ≡ same_code code (party_read row.now) }
{
    row.iter()
        .zip(code.iter())
        .all(|(cell, byte)| *cell == *byte as u32)
}

fn code_taken(book: &Book, code: [u8; 16]) -> bool
    ensures { result ≡ code_taken code (book_of book.now).parties }
{
    let rows = cells::parties(book);
    rows.iter().any(|row| same_code(row, code))
}

fn party_verdict(book: &Book, party: Party) -> Result<(), Refusal>
    ensures { Judged (book_of book.now) (AddParty party.code party.access) result }
{
    if party_field(party) {
        return Err(Refusal::Field);
    }
    if setup::setup_shut(book) {
        return Err(Refusal::SetupShut);
    }
    if code_taken(book, party.code) {
        return Err(Refusal::Taken);
    }
    if cells::PARTIES.is_full(book) {
        return Err(Refusal::Full);
    }
    Ok(())
}

pub fn add_party(book: &mut Book, party: Party) -> Answer
    ensures { Answers book.old (AddParty party.code party.access) result book.new }
{
    party_verdict(book, party)?;
    Ok(stores::place_row(book, &cells::PARTIES, &party.row()))
}
