// Codes of the published lists: those of parties are accepted, those of areas and misprints are refused.
use cases_printing::Report;
use std::io;

const PARTIES: [[u8; 16]; 25] = [
    *b"10XCZ-CEPS-GRIDE",
    *b"10XSK-SEPS-GRIDB",
    *b"10XAT-APG------Z",
    *b"10XPL-TSO------P",
    *b"10X1001A1001A094",
    *b"10XDE-VE-TRANSMK",
    *b"10XDE-EON-NETZ-C",
    *b"10XDE-RWENET---W",
    *b"10XDE-ENBW--TNGX",
    *b"10XFR-RTE------Q",
    *b"10X1001A1001A361",
    *b"10XCH-SWISSGRIDC",
    *b"10XSI-ELES-----1",
    *b"10XHR-HEP-OPS--A",
    *b"10XRO-TEL------2",
    *b"10XES-REE------E",
    *b"10XPT-REN------9",
    *b"10X1001A1001A248",
    *b"10X1001A1001A450",
    *b"10X1001A1001A264",
    *b"11XRWETRADING--0",
    *b"11XCEZ-CZ------1",
    *b"11XSTATKRAFT001N",
    *b"11XDANSKECOM---P",
    *b"11XDISAM-------V",
];

// Areas, whose third character is Y, and then five misprints of the source documents.
const OTHERS: [[u8; 16]; 51] = [
    *b"10YCZ-CEPS-----N",
    *b"10YAT-APG------L",
    *b"10YDOM-AT-CZ---5",
    *b"10YDOM-CZ-D2---O",
    *b"10YDOM-CZ-D8---V",
    *b"10YDOM-CZ-PL---5",
    *b"10YDOM-CZ-SK---T",
    *b"10YDOM-D8-PL---R",
    *b"10YDOM-PL-SK---O",
    *b"10YDOM-CZ-DE-SKK",
    *b"10YDOM--CZ-PL--S",
    *b"10YDOM-HU-SK---O",
    *b"10YDOM-AT-HU---0",
    *b"10YSK-SEPS-----K",
    *b"10YPL-AREA-----S",
    *b"10YHU-MAVIR----U",
    *b"10YDE-EON------1",
    *b"10YDE-VE-------2",
    *b"10YDE-RWENET---I",
    *b"10YDE-ENBW-----N",
    *b"10YFR-RTE------C",
    *b"10YBE----------2",
    *b"10YNL----------L",
    *b"10YCH-SWISSGRIDZ",
    *b"10YSI-ELES-----O",
    *b"10YHR-HEP------M",
    *b"10YRO-TEL------P",
    *b"10YCS-SERBIATSOV",
    *b"10YES-REE------0",
    *b"10YPT-REN------W",
    *b"10YGB----------A",
    *b"10YDK-1--------W",
    *b"10YDK-2--------M",
    *b"10YIT-GRTN-----B",
    *b"10YGR-HTSO-----Y",
    *b"10YFI-1--------U",
    *b"10YNO-0--------C",
    *b"10YSE-1--------K",
    *b"10YLT-1001A0008Q",
    *b"10YLV-1001A00074",
    *b"10Y1001A1001A39I",
    *b"10YCA-BULGARIA-R",
    *b"10YMK-MEPSO----8",
    *b"10YAL-KESH-----5",
    *b"10YBA-JPCC-----D",
    *b"10YCS-CG-TSO---S",
    *b"11XUNI-CZ------5",
    *b"10YDOM-CZ-D2---0",
    *b"10YDOM-PL-SK---0",
    *b"10YDOM-HU-SK---0",
    *b"10YDOM-AT-HU---O",
];

fn verdict(accepted: bool) -> &'static str {
    if accepted { "accepted" } else { "refused" }
}

fn code_case(report: &mut Report<impl Print>, code: [u8; 16], accepted: bool) -> io::Result<()> {
    print!(report.rt; "party code ")?;
    report.rt.write_all(&code)?;
    print!(report.rt; ": ")?;
    report.compare(&verdict(eic::is_party_code(code)), &verdict(accepted))
}

pub fn run(report: &mut Report<impl Print>) -> io::Result<()> {
    for code in PARTIES {
        code_case(report, code, true)?;
    }
    for code in OTHERS {
        code_case(report, code, false)?;
    }
    Ok(())
}
