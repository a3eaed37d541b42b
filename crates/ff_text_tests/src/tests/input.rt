// Inputs and what they ask for, or why they are refused.
use ff_base::{Caller, NoMemory};
use ff_input::{Asked, BadInput, read_asked};
use ff_io::MemorySource;
use ff_model::{Kind, Op};
use ff_settings::{BadSettings, SettingName};
use ff_trace::Row;
use std::alloc::{AllocError, Global};
use std::test::Fail;

// An input, and the number of its rows or why it is refused.
type Answer = (&'static [u8], Result<usize, BadInput>);

static ANSWERS: [Answer; 29] = [
    // The separator is the first line that is exactly three dashes.
    (b"---\ncaller,op,a,b\n", Ok(0)),
    (b"---\r\ncaller,op,a,b\n0,verify,,", Ok(1)),
    (b"blocks = 16\n---\ncaller,op,a,b\n0,verify,,\n", Ok(1)),
    (b"\r\n# ---\n---\ncaller,op,a,b\n", Ok(0)),
    (
        b"\xef\xbb\xbfways = 2\n---\n\xef\xbb\xbfcaller,op,a,b\n",
        Ok(0),
    ),
    (b"", Err(BadInput::NoSeparator)),
    (b"---", Err(BadInput::NoSeparator)),
    (b"blocks = 16\n---", Err(BadInput::NoSeparator)),
    (b"--- \ncaller,op,a,b\n", Err(BadInput::NoSeparator)),
    (b" ---\ncaller,op,a,b\n", Err(BadInput::NoSeparator)),
    (b"----\ncaller,op,a,b\n", Err(BadInput::NoSeparator)),
    (b"---\r\r\ncaller,op,a,b\n", Err(BadInput::NoSeparator)),
    (
        b"\xef\xbb\xbf---\ncaller,op,a,b\n",
        Err(BadInput::NoSeparator),
    ),
    // A second such line is of the trace.
    (b"---\n---\ncaller,op,a,b\n", Err(BadInput::BadRow(0))),
    (b"---\ncaller,op,a,b\n---\n", Err(BadInput::BadRow(1))),
    // Settings are refused before rows are.
    (b"--\n---\n", Err(BadInput::BadSettings(BadSettings::Text))),
    (
        b"ways = 17\n---\n",
        Err(BadInput::BadSettings(BadSettings::Bound(SettingName::Ways))),
    ),
    (
        b"ways = true\n---\n",
        Err(BadInput::BadSettings(BadSettings::Kind(SettingName::Ways))),
    ),
    (
        b"power_event = 1\n---\n",
        Err(BadInput::BadSettings(BadSettings::Key)),
    ),
    (
        b"cut = [{at = 0, mask = 0, arrive = 0}]\n---\ncaller,op,a,b\n",
        Err(BadInput::BadSettings(BadSettings::Bound(SettingName::Cut))),
    ),
    (b"cut = []\n---\ncaller,op,a,b\n", Ok(0)),
    (
        b"cut = [{at = 2, mask = 0, arrive = 0}]\n---\ncaller,op,a,b\n",
        Ok(0),
    ),
    // Rows are read under good settings.
    (b"ways = 16\n---\n", Err(BadInput::BadRow(0))),
    (
        b"---\ncaller,op,a,b\n63,verify,,\n-,promote,1,\n-,evict,2,\n-,collect,3,\n-,drain,4,\n",
        Ok(5),
    ),
    (
        b"---\ncaller,op,a,b\n64,verify,,\n",
        Err(BadInput::BadRow(1)),
    ),
    (b"---\ncaller,op,a,b\n-,power,0,\n", Ok(1)),
    (
        b"---\ncaller,op,a,b\n0,verify,,\n-,power,0,\n0,fly,,\n",
        Err(BadInput::BadRow(3)),
    ),
    // The power is lost 16 times at most, by rows and by cuts.
    (
        b"---\ncaller,op,a,b\n\
        -,power,0,\n-,power,0,\n-,power,0,\n-,power,0,\n-,power,0,\n\
        -,power,0,\n-,power,0,\n-,power,0,\n-,power,0,\n-,power,0,\n\
        -,power,0,\n-,power,0,\n-,power,0,\n-,power,0,\n-,power,0,\n\
        -,power,0,\n-,power,0,\n",
        Err(BadInput::BadRow(17)),
    ),
    (
        b"cut = [{at = 2, mask = 0, arrive = 0}, {at = 5, mask = 1, arrive = 3}]\n---\ncaller,op,a,b\n\
        -,power,0,\n-,power,0,\n-,power,0,\n-,power,0,\n-,power,0,\n\
        -,power,0,\n-,power,0,\n-,power,0,\n-,power,0,\n-,power,0,\n\
        -,power,0,\n-,power,0,\n-,power,0,\n-,power,0,\n-,power,0,\n",
        Err(BadInput::BadRow(15)),
    ),
];

/// What an input asks for, where this read fails.
fn read(
    alloc: Global,
    input: &[u8],
    failing_read: u64,
) -> Result<Result<Asked, BadInput>, NoMemory> {
    let fail = vec![in alloc; failing_read]?;
    let mut source = MemorySource::new(input.to_vec(alloc)?, fail);
    Ok(read_asked(alloc, &mut source))
}

#[test]
fn inputs_are_read_or_refused(rt: HostRuntime) -> Result<(), Fail> {
    for (input, wanted) in ANSWERS.iter() {
        let answer = read(rt.alloc(), input, 0)?.map(|asked| asked.rows.len());
        assert_eq!(rt; answer, *wanted, "at {input:?}");
    }
    Ok(())
}

#[test]
fn settings_and_rows_are_those_asked_for(rt: HostRuntime) -> Result<(), Fail> {
    let input = b"ways = 1\nfail = [1]\n---\r\ncaller,op,a,b\n3,load,16,8\n-,drain,2,\n";
    let wanted = [
        Row::Call {
            caller: Caller(3),
            op: Op::Load { at: 16, len: 8 },
        },
        Row::Turns {
            kind: Kind::Drain,
            count: 2,
        },
    ];
    match read(rt.alloc(), input, 0)? {
        Ok(asked) => {
            assert_eq!(rt; asked.settings.geometry.ways, 1);
            assert_eq!(rt; asked.settings.geometry.blocks, 8);
            assert!(rt; asked.settings.plan.fail.as_slice() == [1].as_slice());
            assert!(rt; asked.rows.as_slice() == wanted.as_slice());
        }
        Err(why) => panic!(rt; "refused: {why:?}"),
    }
    Ok(())
}

#[test]
fn each_failing_read_is_a_read_fault(rt: HostRuntime) -> Result<(), Fail> {
    // The first read gives the whole input and the second finds its end.
    for failing_read in 1..3 {
        let answer = read(rt.alloc(), b"---\ncaller,op,a,b\n", failing_read)?;
        assert!(rt;
            answer.is_err_and(|why| why == BadInput::ReadFault),
            "at read {failing_read}"
        );
    }
    Ok(())
}

fn dashes(alloc: Global, count: usize) -> Result<Vec<u8>, AllocError> {
    vec![in alloc; b'-'; count]
}

#[test]
fn one_byte_past_the_limit_is_too_long(rt: HostRuntime) -> Result<(), Fail> {
    let alloc = rt.alloc();
    for (count, wanted) in [
        (67_108_864, BadInput::NoSeparator),
        (67_108_865, BadInput::TooLong),
    ] {
        let mut source = MemorySource::new(dashes(alloc, count)?, Vec::new(alloc));
        let answer = read_asked(alloc, &mut source);
        assert!(rt; answer.is_err_and(|why| why == wanted), "at {count} bytes");
    }
    Ok(())
}
