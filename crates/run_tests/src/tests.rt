// Runs over the desk in memory.

use combine_cli::{Name, Refusal, Scope, run};
use desk_io::{Desk, DeskError, MemDesk};
use std::alloc::{AllocError, Global};
use std::process::Abort;
use std::test::Fail;
use std::thread::Threads;

const ONE_STATION: &str = "%=SNX 2.02 ABC 24:002:00000 ABC 24:001:00000 24:002:00000 P 00001 2 S
+SOLUTION/APRIORI
     1 STAX   ABCD  A    1 24:001:00000 m    2  .100000000000000E+01 .000000E+00
-SOLUTION/APRIORI
+SOLUTION/NORMAL_EQUATION_VECTOR
     1 STAX   ABCD  A    1 24:001:00000 m    2  .200000000000000E+01
-SOLUTION/NORMAL_EQUATION_VECTOR
+SOLUTION/NORMAL_EQUATION_MATRIX L
     1     1   .40000000000000E+01
-SOLUTION/NORMAL_EQUATION_MATRIX L
%ENDSNX
";

const ONE_STATION_REPORT: &str = "SNXCOMB BOUNDS 1
CERT g=40 B=1 M=0 N=1
     1 STAX   ABCD  A    1 24:001:00000 m    1.5000000000000000 1.5000000000000000 0E-29
END
";

// Each row has an a priori value, a matrix element and a vector element, and then the numbers of the certificate and of the
// parameter's line, or the line of its refusal. tools/combine.py computes them, apart from this program.
const ROWS: &str = "\
-.123456789012345E+03 | .70000000000000E+01 | -.250000000000000E+01 | g=40 B=1 M=1 | -123.8139318694881000 -123.8139318694877000 100000000000000000E-29
0 | 1.5E-18 | 1E-20 | g=40 B=357913942 M=4445 | -0.3335000000000000 1.0001000000000000 66670000000000000000E-38
1E-17 | 4 | 0 | g=40 B=1 M=0 | 0.0000000000000000 0.0000000000000001 40000000000000000E-29
15+2 | 25-2 | 1E+002 | g=40 B=1 M=0 | 1900.0000000000000000 1900.0000000000000000 0E-30
0 | .0116 | 213982.3 | range stack STAX/ABCD/A/1/24:001:00000 STAX/ABCD/A/1/24:001:00000
1 | 1E-19 | 1E-30 | defect stack STAX/ABCD/A/1/24:001:00000 1073741824
1 | 4 | 1E+17 | range file:in STAX/ABCD/A/1/24:001:00000 STAX/ABCD/A/1/24:001:00000
";

const PAIR_REPORT: &str = "SNXCOMB BOUNDS 1
CERT g=30 B=1340 M=1 N=2
     1 STAX   ABCD  A    1 24:001:00000 m    0.9999999999999970 1.0000000000000010 1000000000000000000E-27
     2 STAY   ABCD  A    1 24:001:00000 m    0.9999999999999980 1.0000000000000020 999999000000000000E-27
END
";

// Bounds and residuals of combinations of one parameter x, whose a priori value is 1. tools/combine.py computes them, apart from
// this program: of 8 (x - 1) = 3, of 7 (x - 1) = 3, and of that with half of each element.
const EIGHTHS: (&str, &str) = (
    "g=40 B=1 M=0",
    "1.3750000000000000 1.3750000000000000 0E-29",
);

const SEVENTHS: (&str, &str) = (
    "g=40 B=1 M=1",
    "1.4285714285712000 1.4285714285716000 20000000000000000E-29",
);

const HALVED: (&str, &str) = (
    "g=40 B=1 M=1",
    "1.4285714285712000 1.4285714285716000 10000000000000000E-29",
);

// Of 8 (x - 1) = 5.2, which is 4 (x - 1) = 2 and 4 (x - 1.3) = 2 at the value of the first, and likewise at that of the second.
const MOVED: (&str, &str) = (
    "g=40 B=1 M=0",
    "1.6500000000000000 1.6500000000000000 0E-29",
);

// Of 5 (x - 1) = 2.5, which a solution gives, and of 1 (x - 1) = 2.5, without the constraint of its standard deviation; and of the latter
// with 4 (x - 1) = 2.
const ESTIMATED: (&str, &str) = (
    "g=40 B=1 M=0",
    "1.5000000000000000 1.5000000000000000 0E-29",
);

const FREED: (&str, &str) = (
    "g=40 B=1 M=1",
    "3.4999999999970000 3.5000000000010000 1000000000000000000E-30",
);

const FREED_AND_FOUR: (&str, &str) = (
    "g=40 B=1 M=0",
    "1.9000000000000000 1.9000000000000000 0E-29",
);

// A solution of one parameter: the estimate 1.5, the information matrix 5, and the a priori value 1 with the standard deviation .5.
const SOLUTION: &str = "%=SNX 2.02
+SOLUTION/ESTIMATE
     1 STAX   ABCD  A    1 24:001:00000 m    2                   1.5 .100000E+00
-SOLUTION/ESTIMATE
+SOLUTION/APRIORI
     1 STAX   ABCD  A    1 24:001:00000 m    2                     1 .500000E+00
-SOLUTION/APRIORI
+SOLUTION/MATRIX_ESTIMATE L INFO
     1     1                     5
-SOLUTION/MATRIX_ESTIMATE L INFO
%ENDSNX
";

// A station without observations, and the report of its coordinates where rows of a datum hold them.
const FREE_STATION: &str = "%=SNX 2.02
+SOLUTION/APRIORI
     1 STAX   AAAA  A    1 24:001:00000 m    2               4000000 .000000E+00
     2 STAY   AAAA  A    1 24:001:00000 m    2               1000000 .000000E+00
     3 STAZ   AAAA  A    1 24:001:00000 m    2               4800000 .000000E+00
-SOLUTION/APRIORI
+SOLUTION/NORMAL_EQUATION_VECTOR
     1 STAX   AAAA  A    1 24:001:00000 m    2                     0
     2 STAY   AAAA  A    1 24:001:00000 m    2                     0
     3 STAZ   AAAA  A    1 24:001:00000 m    2                     0
-SOLUTION/NORMAL_EQUATION_VECTOR
+SOLUTION/NORMAL_EQUATION_MATRIX L
-SOLUTION/NORMAL_EQUATION_MATRIX L
%ENDSNX
";

const HELD_REPORT: &str = "SNXCOMB BOUNDS 1
CERT g=40 B=1 M=0 N=3
     1 STAX   AAAA  A    1 24:001:00000 m    4000000.0000000000000000 4000000.0000000000000000 0E-27
     2 STAY   AAAA  A    1 24:001:00000 m    1000000.0000000000000000 1000000.0000000000000000 0E-27
     3 STAZ   AAAA  A    1 24:001:00000 m    4800000.0000000000000000 4800000.0000000000000000 0E-27
END
";

#[derive(Clone, Copy)]
struct Row<'a> {
    apriori: &'a str,
    matrix: &'a str,
    vector: &'a str,
    answer: &'a str,
}

fn row_of(line: &str) -> Option<Row<'_>> {
    let (apriori, line) = line.split_once(" | ")?;
    let (matrix, line) = line.split_once(" | ")?;
    let (vector, answer) = line.split_once(" | ")?;
    Some(Row {
        apriori,
        matrix,
        vector,
        answer,
    })
}

// A file with these texts in its fields.
fn file_of(alloc: Global, apriori: &str, matrix: &str, vector: &str) -> Result<String, AllocError> {
    let mut text = format!(in alloc;
        "%=SNX 2.02\n+SOLUTION/APRIORI\n     1 STAX   ABCD  A    1 24:001:00000 m    2 {apriori:>21} .000000E+00\n"
    )?;
    text.push_str("-SOLUTION/APRIORI\n+SOLUTION/NORMAL_EQUATION_VECTOR\n")?;
    text.push_str(format!(in alloc;
        "     1 STAX   ABCD  A    1 24:001:00000 m    2 {vector:>21}\n"
    )?.as_str())?;
    text.push_str("-SOLUTION/NORMAL_EQUATION_VECTOR\n+SOLUTION/NORMAL_EQUATION_MATRIX L\n")?;
    if matrix != "-" {
        text.push_str(format!(in alloc; "     1     1 {matrix:>21}\n")?.as_str())?;
    }
    text.push_str("-SOLUTION/NORMAL_EQUATION_MATRIX L\n%ENDSNX\n")?;
    Ok(text)
}

// A file of two rows, of STAX and STAY of ABCD, with these texts in its fields.
fn pair_of(alloc: Global, diagonal: &str, other: &str, vector: &str) -> Result<String, AllocError> {
    format!(in alloc;
        "%=SNX 2.02
+SOLUTION/APRIORI
     1 STAX   ABCD  A    1 24:001:00000 m    2                     0 .000000E+00
     2 STAY   ABCD  A    1 24:001:00000 m    2                     0 .000000E+00
-SOLUTION/APRIORI
+SOLUTION/NORMAL_EQUATION_VECTOR
     1 STAX   ABCD  A    1 24:001:00000 m    2 {vector:>21}
     2 STAY   ABCD  A    1 24:001:00000 m    2 {vector:>21}
-SOLUTION/NORMAL_EQUATION_VECTOR
+SOLUTION/NORMAL_EQUATION_MATRIX L
     1     1 {diagonal:>21}
     2     1 {other:>21}
     2     2 {diagonal:>21}
-SOLUTION/NORMAL_EQUATION_MATRIX L
%ENDSNX
"
    )
}

fn report_of(alloc: Global, certificate: &str, numbers: &str) -> Result<String, AllocError> {
    format!(in alloc;
        "SNXCOMB BOUNDS 1\nCERT {certificate} N=1\n     1 STAX   ABCD  A    1 24:001:00000 m    {numbers}\nEND\n"
    )
}

// A desk with a file `in` of this text, on which the calls of these numbers fail.
fn desk_with(alloc: Global, text: &str, fail: Vec<u32>) -> Result<MemDesk, AllocError> {
    let mut desk = MemDesk::new(alloc, fail);
    desk.add_file("in", text.as_bytes())?;
    Ok(desk)
}

// The words of a command line, parted by blanks.
fn words_of(alloc: Global, line: &str) -> Result<Vec<String>, AllocError> {
    let mut words = Vec::new(alloc);
    for word in line.split_whitespace() {
        words.push(String::from_str(alloc, word)?)?;
    }
    Ok(words)
}

// A run of the line over the desk ends so: with this status, with these bytes said, and with these in `rep`.
fn ends<R: Threads + Sync + Abort + AllocGlobal>(
    rt: &R,
    desk: &mut MemDesk,
    line: &str,
    status: u8,
    said: &str,
    report: Option<&str>,
) -> Result<(), Fail> {
    let words = words_of(rt.alloc(), line)?;
    assert_eq!(rt; run(rt, rt.alloc(), &words, desk), status);
    assert_eq!(rt; desk.said(), said.as_bytes());
    assert_eq!(rt; desk.file("rep"), report.map(|text| text.as_bytes()));
    Ok(())
}

// A run on a file of this text ends so.
fn solves<R: Threads + Sync + Abort + AllocGlobal>(
    rt: &R,
    text: &str,
    status: u8,
    said: &str,
    report: Option<&str>,
) -> Result<(), Fail> {
    let alloc = rt.alloc();
    let mut desk = desk_with(alloc, text, Vec::new(alloc))?;
    ends(rt, &mut desk, "solve in rep", status, said, report)
}

// Runs on the file of each row end with its report, or refuse it.
fn rows_end<R: Threads + Sync + Abort + AllocGlobal>(rt: &R, rows: &str) -> Result<(), Fail> {
    let alloc = rt.alloc();
    for line in rows.lines() {
        let row = row_of(line).expect(rt, "a row");
        let text = file_of(alloc, row.apriori, row.matrix, row.vector)?;
        if let Some((certificate, numbers)) = row.answer.split_once(" | ") {
            let report = report_of(alloc, certificate, numbers)?;
            solves(rt, text.as_str(), 0, "", Some(report.as_str()))?;
        } else {
            let answer = row.answer;
            let said = format!(in alloc; "snxcomb: {answer}\n")?;
            solves(rt, text.as_str(), 6, said.as_str(), None)?;
        }
    }
    Ok(())
}

#[test]
fn reports(rt: HostRuntime) -> Result<(), Fail> {
    let alloc = rt.alloc();
    solves(&rt, ONE_STATION, 0, "", Some(ONE_STATION_REPORT))?;
    let pair = pair_of(alloc, "1000000", "999999", "1999999")?;
    solves(&rt, pair.as_str(), 0, "", Some(PAIR_REPORT))?;
    let pivot = pair_of(alloc, "4", "4", "1999999")?;
    solves(
        &rt,
        pivot.as_str(),
        6,
        "snxcomb: pivot stack STAY/ABCD/A/1/24:001:00000\n",
        None,
    )?;
    rows_end(&rt, ROWS)
}

// A control file over these files: each has a name, and what else is said of it behind a blank.
fn control_of(alloc: Global, files: &str) -> Result<String, AllocError> {
    let mut text = String::from_str(
        alloc,
        "output = { agency = 'ABC', created = '24:002:00000' }\n",
    )?;
    for file in files.split("; ") {
        let (name, more) = file.split_once(" ").unwrap_or((file, ""));
        text.push_str(format!(in alloc; "[[file]]\nname = '{name}'\n{more}\n")?.as_str())?;
    }
    Ok(text)
}

// A desk with that control file, five files of one parameter, one of a station, and a solution: the matrices of the five are 4, 3, 1, 2
// and 4, their right sides 2, 1, 0, 1 and 2, and the last has the a priori value 1.3.
fn files_on_desk(alloc: Global, control: &str) -> Result<MemDesk, AllocError> {
    let mut desk = MemDesk::new(alloc, Vec::new(alloc));
    desk.add_file("con", control.as_bytes())?;
    for (name, apriori, matrix, vector) in [
        ("a", "1", "4", "2"),
        ("b", "1", "3", "1"),
        ("c", "1", "1", "0"),
        ("d", "1", "2", "1"),
        ("e", "1.3", "4", "2"),
    ] {
        let text = file_of(alloc, apriori, matrix, vector)?;
        desk.add_file(name, text.as_bytes())?;
    }
    desk.add_file("free", FREE_STATION.as_bytes())?;
    desk.add_file("s", SOLUTION.as_bytes())?;
    Ok(desk)
}

// Whatever the order, the groups and the reference, one report; with the weight .5 in each file the same bounds, and half the residual. The
// combined file, solved again, has the same report.
#[test]
fn combines(rt: HostRuntime) -> Result<(), Fail> {
    let alloc = rt.alloc();
    for (files, (certificate, numbers)) in [
        ("a; b; c", EIGHTHS),
        ("c; b; a", EIGHTHS),
        ("b group = 'g'; a; c group = 'g'", EIGHTHS),
        (
            "a weight = '.5'; b weight = '0.5'; c weight = '5E-1'",
            EIGHTHS,
        ),
        ("a; d; c", SEVENTHS),
        ("a weight = '.5'; d weight = '.5'; c weight = '.5'", HALVED),
        ("e; a", MOVED),
        ("a; e [run]\nreference = 'e'", MOVED),
        ("s", ESTIMATED),
        ("s constraints = 'sigma'", FREED),
        ("s constraints = 'sigma'; a", FREED_AND_FOUR),
    ] {
        let control = control_of(alloc, files)?;
        let mut desk = files_on_desk(alloc, control.as_str())?;
        let report = report_of(alloc, certificate, numbers)?;
        ends(
            &rt,
            &mut desk,
            "combine con out rep",
            0,
            "",
            Some(report.as_str()),
        )?;
        ends(
            &rt,
            &mut desk,
            "solve out rep",
            0,
            "",
            Some(report.as_str()),
        )?;
    }
    Ok(())
}

#[test]
fn stations_are_held(rt: HostRuntime) -> Result<(), Fail> {
    let alloc = rt.alloc();
    let control = control_of(
        alloc,
        "free [datum]\nsites = [['AAAA', 'A', '1']]\ntranslation = '.001'",
    )?;
    let mut desk = files_on_desk(alloc, control.as_str())?;
    let line = "combine con out rep";
    ends(&rt, &mut desk, line, 0, "", Some(HELD_REPORT))?;
    let control = control_of(alloc, "free")?;
    let said = "snxcomb: pivot stack STAX/AAAA/A/1/24:001:00000\n";
    refuses(&rt, control.as_str(), line, 6, said)
}

// A run of the line over the desk with that control file says this line alone, and leaves the files as they were.
fn refuses<R: Threads + Sync + Abort + AllocGlobal>(
    rt: &R,
    control: &str,
    line: &str,
    status: u8,
    said: &str,
) -> Result<(), Fail> {
    let alloc = rt.alloc();
    let before = files_on_desk(alloc, control)?;
    let mut desk = files_on_desk(alloc, control)?;
    ends(rt, &mut desk, line, status, said, None)?;
    for name in ["con", "a", "b", "c", "d", "e", "free", "s", "out"] {
        assert_eq!(rt; desk.file(name), before.file(name));
    }
    Ok(())
}

#[test]
fn lines_are_refused(rt: HostRuntime) -> Result<(), Fail> {
    let control = control_of(rt.alloc(), "b; c")?;
    for (line, status, said) in [
        ("solve in in", 2, "snxcomb: words\n"),
        ("solve in", 2, "snxcomb: words\n"),
        ("combine con out out", 2, "snxcomb: words\n"),
        ("combine con con rep", 2, "snxcomb: words\n"),
        ("solve none rep", 3, "snxcomb: no file none\n"),
        ("combine none out rep", 3, "snxcomb: no file none\n"),
        ("combine con c rep", 3, "snxcomb: control samename c\n"),
        ("combine con out b", 3, "snxcomb: control samename b\n"),
        ("combine a out rep", 3, "snxcomb: control syntax\n"),
    ] {
        refuses(&rt, control.as_str(), line, status, said)?;
    }
    Ok(())
}

// Each control file has one fault or more. Two causes come in their stated order.
#[test]
fn controls_are_refused(rt: HostRuntime) -> Result<(), Fail> {
    for (files, said) in [
        ("b; none", "snxcomb: no file none\n"),
        ("con; none", "snxcomb: control samename con\n"),
        ("b; b", "snxcomb: control repeated file.1.name\n"),
        ("b weigth = '1'; c", "snxcomb: control key file.0.weigth\n"),
        ("b weight = 1; c", "snxcomb: control kind file.0.weight\n"),
        (
            "b; c weight = '0'",
            "snxcomb: control value file.1.weight\n",
        ),
        ("b weight = '1; c", "snxcomb: control syntax\n"),
        (
            "none; c [[reduce]]\nat = 'end'\nparam = ['STAX', 'ABCD', 'A', '1', '24:001:00000']",
            "snxcomb: unbuilt con\n",
        ),
        (
            "c form = 'solution'; b",
            "snxcomb: block file:c SOLUTION/ESTIMATE\n",
        ),
        (
            "s constraints = 'matrix'; c",
            "snxcomb: block file:s SOLUTION/MATRIX_APRIORI\n",
        ),
        (
            "s form = 'neq'",
            "snxcomb: block file:s SOLUTION/NORMAL_EQUATION_VECTOR\n",
        ),
        (
            "free [datum]\nsites = [['AAAA', 'A', '1'], ['AAAA', 'A', '2']]\nscale = '.001'",
            "snxcomb: unmatched site AAAA/A/2\n",
        ),
    ] {
        let control = control_of(rt.alloc(), files)?;
        refuses(&rt, control.as_str(), "combine con out rep", 3, said)?;
    }
    Ok(())
}

#[test]
fn faults(rt: HostRuntime) -> Result<(), Fail> {
    let alloc = rt.alloc();
    let half = "SNXCOMB BOUNDS 1\nCERT g=40 B=1 M=0 N=1\n     1 STAX   ABCD  A    1 ";
    for (call, report) in [
        (1, None),
        (2, None),
        (3, None),
        (4, None),
        (5, Some(half)),
        (6, Some(ONE_STATION_REPORT)),
    ] {
        let mut desk = desk_with(alloc, ONE_STATION, vec![in alloc; call]?)?;
        ends(&rt, &mut desk, "solve in rep", 5, "snxcomb: desk\n", report)?;
    }
    let mut desk = desk_with(alloc, ONE_STATION, vec![in alloc; 1]?)?;
    ends(&rt, &mut desk, "", 5, "snxcombsnxcomb: desk\n", None)?;
    let mut desk = desk_with(alloc, ONE_STATION, vec![in alloc; 1, 2]?)?;
    ends(&rt, &mut desk, "", 5, "snxcombsnxcomb", None)?;
    Ok(())
}

// A desk in memory of whose calls those of the numbers in `wants` want memory.
#[derive(Drop)]
struct ShortDesk {
    desk: MemDesk,
    wants: Vec<u32>,
    calls: u32,
}

// Counts a call, and says whether it wants memory.
fn is_short(wants: &[u32], calls: &mut u32) -> bool {
    *calls = calls.saturating_add(1);
    wants.contains(calls)
}

impl Desk for ShortDesk {
    ghost use Rattle.std.specs.Prelude.{false};
    ghost use Rattle.desk_io.specs.Content.{no_content};
    ghost use Rattle.desk_io.specs.MemDesk.{mem_facts};

    ghost tells = { false };

    ghost content = { λ _. no_content };

    ghost facts = { λ d. mem_facts d.desk };

    ghost faults = { λ d. d.desk.faults };

    fn open(&mut self, name: &str) -> Result<bool, DeskError> {
        if is_short(&self.wants, &mut self.calls) {
            return Err(DeskError::Memory);
        }
        self.desk.open(name)
    }

    fn read(&mut self, into: &mut [u8]) -> Result<usize, DeskError> {
        if is_short(&self.wants, &mut self.calls) {
            return Err(DeskError::Memory);
        }
        self.desk.read(into)
    }

    fn create(&mut self, name: &str) -> Result<(), DeskError> {
        if is_short(&self.wants, &mut self.calls) {
            return Err(DeskError::Memory);
        }
        self.desk.create(name)
    }

    fn write(&mut self, bytes: &[u8]) -> Result<(), DeskError> {
        if is_short(&self.wants, &mut self.calls) {
            return Err(DeskError::Memory);
        }
        self.desk.write(bytes)
    }

    fn finish(&mut self) -> Result<(), DeskError> {
        if is_short(&self.wants, &mut self.calls) {
            return Err(DeskError::Memory);
        }
        self.desk.finish()
    }

    fn say(&mut self, bytes: &[u8]) -> Result<(), DeskError> {
        if is_short(&self.wants, &mut self.calls) {
            return Err(DeskError::Memory);
        }
        self.desk.say(bytes)
    }
}

// Each run, with the calls that want memory, is told by the status and what is said, and leaves this in `rep`.
#[test]
fn memory_is_wanting(rt: HostRuntime) -> Result<(), Fail> {
    let alloc = rt.alloc();
    let memory = "snxcomb: memory\n";
    for (line, first, second, fault, status, said, report) in [
        ("solve in rep", 1, 0, 0, 4, memory, None),
        ("solve in rep", 2, 0, 0, 4, memory, None),
        ("solve in rep", 3, 0, 0, 4, memory, None),
        ("solve in rep", 4, 0, 0, 4, memory, None),
        ("solve in rep", 5, 0, 0, 4, memory, Some("")),
        ("solve in rep", 6, 0, 0, 4, memory, Some(ONE_STATION_REPORT)),
        ("solve in rep", 7, 0, 0, 0, "", Some(ONE_STATION_REPORT)),
        ("solve in rep", 1, 2, 0, 4, "", None),
        ("solve", 1, 0, 0, 4, memory, None),
        ("solve", 2, 0, 0, 2, "snxcomb: words\n", None),
        ("solve in rep", 1, 0, 1, 5, "snxcomb:snxcomb: desk\n", None),
        ("solve in rep", 1, 3, 1, 5, "snxcomb:", None),
    ] {
        let mut desk = ShortDesk {
            desk: desk_with(alloc, ONE_STATION, vec![in alloc; fault]?)?,
            wants: vec![in alloc; first, second]?,
            calls: 0,
        };
        let words = words_of(alloc, line)?;
        assert_eq!(rt; run(&rt, alloc, &words, &mut desk), status);
        assert_eq!(rt; desk.desk.said(), said.as_bytes());
        assert_eq!(rt; desk.desk.file("rep"), report.map(|text| text.as_bytes()));
    }
    Ok(())
}

fn crosses_threads<T: Send + Sync>() {}

#[test]
fn types_cross_threads(_rt: HostRuntime) {
    crosses_threads::<Name>();
    crosses_threads::<Scope>();
    crosses_threads::<Refusal>();
}
