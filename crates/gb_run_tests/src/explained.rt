//! What a run says beside its answer: how it grouped the rows, where that is asked, and why there is no answer.

use gb_base::memory::{FreeGate, MemSink, SoundSource};
use gb_run::limits::Limits;
use gb_run::run::run;
use gb_text::status::Status;
use std::alloc::Global;
use std::test::Fail;
use std::thread::Threads;

/// How a run ended, what it wrote, and what it told.
#[derive(Drop)]
struct Ended {
    status: Status,
    sink: MemSink,
    notes: MemSink,
}

// A run of these words over an input, whose notes have so much room.
fn run_ends<R: Threads + Sync>(
    rt: &R,
    alloc: Global,
    words: &str,
    input: &str,
    room: usize,
) -> Result<Ended, Fail> {
    let mut spelled = Vec::new(alloc);
    for word in words.split(' ') {
        spelled.push(String::from_str(alloc, word)?)?;
    }
    let mut source = SoundSource::new(Vec::from_slice(alloc, input.as_bytes())?);
    let mut sink = MemSink::new(alloc, 256, 4096, Vec::new(alloc))?;
    let mut notes = MemSink::new(alloc, room, 5, Vec::new(alloc))?;
    let limits = Limits {
        input_bytes: 200,
        salt: 0,
    };
    let status = run(
        rt,
        alloc,
        spelled.as_slice(),
        limits,
        &mut source,
        &mut sink,
        &mut notes,
        &FreeGate,
    );
    Ok(Ended {
        status,
        sink,
        notes,
    })
}

/// An input that is grouped by `k`, the answer, and the line of its trace.
struct Explained {
    input: &'static str,
    wrote: &'static str,
    told: &'static str,
}

// The same rows in either order, in none, and with a null at either end and between, as numbers, texts and
// categories; then nulls alone, and no rows.
const ORDERS: [Explained; 20] = [
    Explained {
        input: "k:i64,v:i64\n1,1\n1,2\n2,3\n",
        wrote: "k:i64,v_sum:i64\n1,3\n2,3\n",
        told: "path sorted, groups 2, keys read 0\n",
    },
    Explained {
        input: "k:i64,v:i64\n2,1\n1,2\n1,3\n",
        wrote: "k:i64,v_sum:i64\n2,1\n1,5\n",
        told: "path sorted, groups 2, keys read 0\n",
    },
    Explained {
        input: "k:i64,v:i64\n1,1\n2,2\n1,3\n",
        wrote: "k:i64,v_sum:i64\n1,4\n2,2\n",
        told: "path table, groups 2, keys read 3\n",
    },
    Explained {
        input: "k:i64,v:i64\nNA,1\n1,2\n2,3\n",
        wrote: "k:i64,v_sum:i64\nNA,1\n1,2\n2,3\n",
        told: "path sorted, groups 3, keys read 0\n",
    },
    Explained {
        input: "k:i64,v:i64\n1,1\n2,2\nNA,3\n",
        wrote: "k:i64,v_sum:i64\n1,1\n2,2\nNA,3\n",
        told: "path sorted, groups 3, keys read 0\n",
    },
    Explained {
        input: "k:i64,v:i64\n1,1\nNA,2\n2,3\n",
        wrote: "k:i64,v_sum:i64\n1,1\nNA,2\n2,3\n",
        told: "path table, groups 3, keys read 3\n",
    },
    Explained {
        input: "k:str,v:i64\na,1\na,2\nb,3\n",
        wrote: "k:str,v_sum:i64\na,3\nb,3\n",
        told: "path sorted, groups 2, keys read 0\n",
    },
    Explained {
        input: "k:str,v:i64\nb,1\na,2\na,3\n",
        wrote: "k:str,v_sum:i64\nb,1\na,5\n",
        told: "path sorted, groups 2, keys read 0\n",
    },
    Explained {
        input: "k:str,v:i64\na,1\nb,2\na,3\n",
        wrote: "k:str,v_sum:i64\na,4\nb,2\n",
        told: "path threaded, groups 2, keys read 3\n",
    },
    Explained {
        input: "k:str,v:i64\nNA,1\na,2\nb,3\n",
        wrote: "k:str,v_sum:i64\nNA,1\na,2\nb,3\n",
        told: "path threaded, groups 3, keys read 3\n",
    },
    Explained {
        input: "k:str,v:i64\na,1\nb,2\nNA,3\n",
        wrote: "k:str,v_sum:i64\na,1\nb,2\nNA,3\n",
        told: "path threaded, groups 3, keys read 3\n",
    },
    Explained {
        input: "k:str,v:i64\na,1\nNA,2\nb,3\n",
        wrote: "k:str,v_sum:i64\na,1\nNA,2\nb,3\n",
        told: "path threaded, groups 3, keys read 3\n",
    },
    Explained {
        input: "k:cat,v:i64\na,1\na,2\nb,3\n",
        wrote: "k:cat,v_sum:i64\na,3\nb,3\n",
        told: "path perfect, groups 2, keys read 0\n",
    },
    Explained {
        input: "k:cat,v:i64\nb,1\na,2\na,3\n",
        wrote: "k:cat,v_sum:i64\nb,1\na,5\n",
        told: "path perfect, groups 2, keys read 0\n",
    },
    Explained {
        input: "k:cat,v:i64\na,1\nb,2\na,3\n",
        wrote: "k:cat,v_sum:i64\na,4\nb,2\n",
        told: "path perfect, groups 2, keys read 0\n",
    },
    Explained {
        input: "k:cat,v:i64\nNA,1\na,2\nb,3\n",
        wrote: "k:cat,v_sum:i64\nNA,1\na,2\nb,3\n",
        told: "path perfect, groups 3, keys read 0\n",
    },
    Explained {
        input: "k:cat,v:i64\na,1\nb,2\nNA,3\n",
        wrote: "k:cat,v_sum:i64\na,1\nb,2\nNA,3\n",
        told: "path perfect, groups 3, keys read 0\n",
    },
    Explained {
        input: "k:cat,v:i64\na,1\nNA,2\nb,3\n",
        wrote: "k:cat,v_sum:i64\na,1\nNA,2\nb,3\n",
        told: "path perfect, groups 3, keys read 0\n",
    },
    Explained {
        input: "k:null,v:i64\nNA,1\nNA,2\n",
        wrote: "k:null,v_sum:i64\nNA,3\n",
        told: "path nulls, groups 1, keys read 0\n",
    },
    Explained {
        input: "k:i64,v:i64\n",
        wrote: "k:i64,v_sum:i64\n",
        told: "path sorted, groups 0, keys read 0\n",
    },
];

const ASKED: &str = "group --by k --agg sum:v --null NA --explain";

const UNASKED: &str = "group --by k --agg sum:v --null NA";

// Whether a run answers and tells this.
fn answers<R: Threads + Sync>(
    rt: &R,
    alloc: Global,
    words: &str,
    case: &Explained,
    told: &str,
) -> Result<bool, Fail> {
    let end = run_ends(rt, alloc, words, case.input, 256)?;
    Ok(
        end.status.code() == 0
            && end.sink.bytes() == case.wrote.as_bytes()
            && end.notes.bytes() == told.as_bytes(),
    )
}

#[test]
fn keys_in_each_order(rt: HostRuntime) -> Result<(), Fail> {
    let alloc = rt.alloc();
    for case in ORDERS.iter() {
        assert!(rt;
            answers(&rt, alloc, ASKED, case, case.told)?,
            "{}",
            case.input
        );
        assert!(rt; answers(&rt, alloc, UNASKED, case, "")?, "{}", case.input);
    }
    Ok(())
}

const LISTED: [Explained; 1] = [Explained {
    input: "k:i32\n1\n1\n1\n2\n2\n",
    wrote: "k:i32,groups:list[u32]\n1,\"[0,1,2]\"\n2,\"[3,4]\"\n",
    told: "path sorted, groups 2, keys read 0\n",
}];

#[test]
fn rows_of_a_sorted_key(rt: HostRuntime) -> Result<(), Fail> {
    let alloc = rt.alloc();
    for (workers, partitions) in [("2", "1"), ("2", "1024"), ("64", "1"), ("64", "1024")] {
        let words = format!(in alloc; "group --by k --agg groups --explain --workers {workers}")?;
        let words = format!(in alloc; "{words} --partitions {partitions}")?;
        for case in &LISTED {
            assert!(rt; answers(&rt, alloc, words.as_str(), case, case.told)?);
        }
    }
    Ok(())
}

/// Words, an input, and how the run is to end and what it tells.
struct Refused {
    words: &'static str,
    input: &'static str,
    code: u8,
    told: &'static str,
}

const LONG: &str =
    "k\n0123456789012345678901234567890123456789012345678901234567890123456789012345678901234567890123456789012345678901234567890123456789012345678901234567890123456789012345678901234567890123456789012345678901234567890123456789\n";

const REFUSALS: [Refused; 10] = [
    Refused {
        words: "regroup",
        input: "k\n",
        code: 2,
        told: "error: usage\n",
    },
    Refused {
        words: ASKED,
        input: "",
        code: 3,
        told: "error: table: no header\n",
    },
    Refused {
        words: ASKED,
        input: "k,v:i64,k\n",
        code: 3,
        told: "error: table: column 3: name used before\n",
    },
    Refused {
        words: ASKED,
        input: "k,v:i64\na,1\nb\n",
        code: 3,
        told: "error: table: row 2: 1 fields, 2 wanted\n",
    },
    Refused {
        words: ASKED,
        input: "k,v:i64\na,1\nb,x\n",
        code: 3,
        told: "error: table: row 2, column 2: bad cell\n",
    },
    Refused {
        words: ASKED,
        input: "key,v:i64\na,1\n",
        code: 4,
        told: "error: column not found: k\n",
    },
    Refused {
        words: ASKED,
        input: "k,w:i64\na,1\n",
        code: 4,
        told: "error: column not found: v\n",
    },
    Refused {
        words: ASKED,
        input: "k,v\na,1\n",
        code: 4,
        told: "error: invalid operation: sum of v\n",
    },
    Refused {
        words: "group --by k --agg count:v --agg valid:v",
        input: "k,v\na,1\n",
        code: 4,
        told: "error: duplicate column: v_count\n",
    },
    Refused {
        words: ASKED,
        input: LONG,
        code: 7,
        told: "error: input too long\n",
    },
];

// Whether a run is refused and tells this, and where the notes have less room a part of it.
fn is_refused<R: Threads + Sync>(rt: &R, alloc: Global, case: &Refused) -> Result<bool, Fail> {
    let end = run_ends(rt, alloc, case.words, case.input, 256)?;
    let short = run_ends(rt, alloc, case.words, case.input, 7)?;
    Ok(
        end.status.code() == case.code
            && end.sink.bytes().is_empty()
            && end.notes.bytes() == case.told.as_bytes()
            && short.status.code() == case.code
            && short.notes.bytes() == b"error: ".as_slice(),
    )
}

#[test]
fn each_cause_has_its_line(rt: HostRuntime) -> Result<(), Fail> {
    let alloc = rt.alloc();
    for case in REFUSALS.iter() {
        assert!(rt; is_refused(&rt, alloc, case)?, "{}", case.told);
    }
    Ok(())
}
