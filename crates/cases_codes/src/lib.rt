// Party codes for tries: a code for each number, made and not published.
#![tactic(auto)]

// A code with the last two digits of the number, and the check character that makes it a party code. After 16, 33 and 50 that would be "-", with which no party
// code ends: the code then ends in "Z" and is no party code, so that the calls refuse it. The programs want these refusals among the rest.
pub fn code_of(number: u8) -> [u8; 16] {
    let mut code = *b"10X-------------";
    code[13] = b'0' + number / 10 % 10;
    code[14] = b'0' + number % 10;
    // A loop, and no `find`: each character is put into the code that is tested, and the last one stays.
    for character in *b"0123456789ABCDEFGHIJKLMNOPQRSTUVWXYZ" {
        code[15] = character;
        if eic::is_party_code(code) {
            return code;
        }
    }
    code
}
