use cf_handles::logs::{
    confluo_check, confluo_close, confluo_free_log, confluo_name, confluo_open, confluo_question,
    confluo_take_reader, confluo_take_writer, confluo_tell, confluo_width,
};
use cf_handles::readers::{
    confluo_ask, confluo_ask_seen, confluo_ask_text, confluo_free_reader, confluo_groups,
    confluo_merge, confluo_report, confluo_row, confluo_tail, confluo_words,
};
use cf_handles::writers::{
    confluo_append, confluo_append_many, confluo_append_row, confluo_append_values,
    confluo_free_writer, confluo_room_of,
};
use cf_handles::{About, LogHandle, ReaderHandle, WriterHandle, copy_part, message_of};
use cf_store::{Capture, Fault, Framed, Head, Room, ShownValue, Sizes};
use std::alloc::Global;
use std::process::Abort;
use std::test::*;

const SETUP: &[u8] = b"schema packet\nask all list *\n";

const SETUP6: &[u8] = b"schema packet6\nask one list src6==2306139568115548160\n";

fn sizes_of(capacity: u32, writers: u32) -> Sizes {
    Sizes {
        capacity,
        writers,
        nodes: 16,
        reserved: 0,
    }
}

fn capture_of(number: u32, link: u32) -> Capture {
    Capture {
        ns: 1000,
        number,
        length: 60,
        link,
        reserved: 0,
    }
}

fn is_send<T: Send + Drop>(_value: T) {}

#[test]
fn handles_cross_threads(rt: HostRuntime) {
    is_send(LogHandle::none(rt.alloc()));
    is_send(WriterHandle::none(rt.alloc()));
    is_send(ReaderHandle::none(rt.alloc()));
}

#[test]
fn setups_are_checked(rt: HostRuntime) {
    let alloc = rt.alloc();
    let cases = [
        (&b"schema packet\nindex\n"[..], 4, 3, (2, 3)),
        (&b"schema packet\nindex\n"[..], 0, 3, (2, 3)),
        (SETUP, 0, 2, (7, 7)),
        (SETUP, 65_537, 2, (7, 7)),
        (SETUP, 4, 0, (7, 7)),
    ];
    for (text, capacity, code, place) in cases {
        let mut bytes = 9;
        let mut fault = Fault { line: 7, code: 7 };
        let sizes = sizes_of(capacity, 1);
        assert_eq!(rt;
            confluo_check(alloc, text, &sizes, &mut bytes, &mut fault),
            code
        );
        assert_eq!(rt; (fault.line, fault.code), place);
        assert_eq!(rt; bytes == 9, code != 0);
    }
}

#[test]
fn a_frame_is_appended_and_asked(rt: HostRuntime) {
    let alloc = rt.alloc();
    let mut log = LogHandle::none(alloc);
    let mut writer = WriterHandle::none(alloc);
    let mut reader = ReaderHandle::none(alloc);
    let mut fault = Fault { line: 0, code: 0 };
    let (mut number, mut offset, mut tail) = (9, 9, 9);
    assert_eq!(rt;
        confluo_take_writer(alloc, &mut log, &mut writer, &mut number),
        4
    );
    assert_eq!(rt;
        confluo_open(alloc, &mut log, SETUP, &sizes_of(4, 1), &mut fault),
        0
    );
    assert_eq!(rt;
        confluo_take_writer(alloc, &mut log, &mut writer, &mut number),
        0
    );
    assert_eq!(rt; number, 0);
    assert_eq!(rt; confluo_take_reader(alloc, &mut log, &mut reader), 0);
    confluo_free_log(alloc, &mut log);
    let far = capture_of(5, 65_537);
    assert_eq!(rt;
        confluo_append(alloc, &mut writer, &far, &[0], &mut offset),
        9
    );
    let near = capture_of(5, 1);
    assert_eq!(rt;
        confluo_append(alloc, &mut writer, &near, &[0], &mut offset),
        0
    );
    assert_eq!(rt; offset, 0);
    assert_eq!(rt;
        confluo_append_values(alloc, &mut writer, 6, &[1], &mut offset),
        8
    );
    assert_eq!(rt; confluo_tail(alloc, &mut reader, &mut tail), 0);
    assert_eq!(rt; tail, 1);
    asked_once(&rt, alloc, &mut reader);
    let mut room = Room {
        capacity: 0,
        covered: 0,
        nodes_left: 0,
        reserved: 9,
    };
    assert_eq!(rt; confluo_room_of(alloc, &mut writer, &mut room), 0);
    assert_eq!(rt;
        (room.capacity, room.covered, room.nodes_left, room.reserved),
        (4, 1, 16, 0)
    );
    confluo_free_writer(alloc, &mut writer);
    confluo_free_writer(alloc, &mut writer);
    confluo_free_reader(alloc, &mut reader);
}

fn asked_once<R: Abort>(rt: &R, alloc: Global, reader: &mut ReaderHandle) {
    let mut head = Head {
        tail: 0,
        kind: 9,
        count: 0,
    };
    let mut words = [9u64; 2];
    assert_eq!(rt; confluo_ask(alloc, reader, 1, &mut head), 10);
    assert_eq!(rt; confluo_ask(alloc, reader, 0, &mut head), 0);
    assert_eq!(rt; (head.tail, head.kind, head.count), (1, 0, 1));
    assert_eq!(rt; confluo_words(alloc, reader, 0, &mut words), 1);
    assert_eq!(rt; (words[0], words[1]), (0, 9));
    assert_eq!(rt; confluo_words(alloc, reader, 2, &mut words), 0);
}

// Opens a log of that setup and appends the frame.
fn append_to<R: Abort>(
    rt: &R,
    alloc: Global,
    text: &[u8],
    link: u32,
    bytes: &[u8],
    reader: &mut ReaderHandle,
) -> u32 {
    let mut log = LogHandle::none(alloc);
    let mut writer = WriterHandle::none(alloc);
    let mut fault = Fault { line: 0, code: 0 };
    let (mut number, mut offset) = (9, 9);
    assert_eq!(rt;
        confluo_open(alloc, &mut log, text, &sizes_of(1, 1), &mut fault),
        0
    );
    assert_eq!(rt;
        confluo_take_writer(alloc, &mut log, &mut writer, &mut number),
        0
    );
    assert_eq!(rt; confluo_take_reader(alloc, &mut log, reader), 0);
    let capture = capture_of(5, link);
    let code = confluo_append(alloc, &mut writer, &capture, bytes, &mut offset);
    confluo_free_log(alloc, &mut log);
    confluo_free_writer(alloc, &mut writer);
    code
}

#[test]
fn a_schema_reads_its_links(rt: HostRuntime) {
    let alloc = rt.alloc();
    let cases = [
        (SETUP, 1, 0),
        (SETUP, 113, 0),
        (SETUP, 276, 9),
        (SETUP, 229, 9),
        (SETUP, 65_535, 9),
        (SETUP6, 1, 0),
        (SETUP6, 276, 0),
        (SETUP6, 108, 0),
        (SETUP6, 65_535, 9),
    ];
    let mut reader = ReaderHandle::none(alloc);
    for (text, link, code) in cases {
        assert_eq!(rt; append_to(&rt, alloc, text, link, &[0], &mut reader), code);
    }
    confluo_free_reader(alloc, &mut reader);
}

// The kinds of `packet`, by other names.
const AS_RECORDS: &[u8] =
    b"schema records ts:u64,a:u32,b:u32,c:b6,d:b6,e:u16,f:u8,g:u8,h:u16,i:u8,j:u8,k:u32,l:u32,m:u16,n:u16,o:u32,p:u32,q:u8,r:u16,s:u16\n";

#[test]
fn a_log_of_records_takes_no_frame(rt: HostRuntime) {
    let alloc = rt.alloc();
    let mut writer = WriterHandle::none(alloc);
    let mut reader = ReaderHandle::none(alloc);
    let (mut offsets, mut done) = ([9u32; 1], 9);
    for link in [1, 276, 65_535, 65_536] {
        assert_eq!(rt;
            append_to(&rt, alloc, AS_RECORDS, link, &[0; 60], &mut reader),
            8
        );
    }
    opened(&rt, alloc, AS_RECORDS, &mut writer, &mut reader);
    for count in [4, 5] {
        let frames = [framed(0, 0, count)];
        assert_eq!(rt;
            confluo_append_many(
                alloc,
                &mut writer,
                &frames,
                b"abcd",
                &mut offsets,
                &mut done
            ),
            8
        );
        assert_eq!(rt; (done, offsets[0]), (0, 9));
    }
    confluo_free_writer(alloc, &mut writer);
    confluo_free_reader(alloc, &mut reader);
}

#[test]
fn an_ipv6_address_is_in_the_row(rt: HostRuntime) {
    let alloc = rt.alloc();
    let mut reader = ReaderHandle::none(alloc);
    // The header of an IPv6 packet from 2001:db8:: to ::, by LINKTYPE_IPV6.
    let mut bytes = [0u8; 40];
    bytes[0] = 0x60;
    bytes[8] = 0x20;
    bytes[9] = 0x01;
    bytes[10] = 0x0d;
    bytes[11] = 0xb8;
    assert_eq!(rt; append_to(&rt, alloc, SETUP6, 229, &bytes, &mut reader), 0);
    let mut head = Head {
        tail: 0,
        kind: 9,
        count: 0,
    };
    let mut words = [9u64; 2];
    assert_eq!(rt; confluo_ask(alloc, &mut reader, 0, &mut head), 0);
    assert_eq!(rt; confluo_words(alloc, &mut reader, 0, &mut words), 1);
    assert_eq!(rt; (words[0], words[1]), (0, 9));
    confluo_free_reader(alloc, &mut reader);
}

const ROWS: &[u8] =
    b"schema records ts:u64,len:u32,tag:b3\nwidth 10\nfilter f *\naggregate a f len\nask all total len *\n";

fn opened<R: Abort>(
    rt: &R,
    alloc: Global,
    text: &[u8],
    writer: &mut WriterHandle,
    reader: &mut ReaderHandle,
) {
    let mut log = LogHandle::none(alloc);
    let mut fault = Fault { line: 0, code: 0 };
    let mut number = 9;
    let mut sizes = sizes_of(4, 1);
    sizes.nodes = 64;
    assert_eq!(rt; confluo_open(alloc, &mut log, text, &sizes, &mut fault), 0);
    assert_eq!(rt;
        confluo_take_writer(alloc, &mut log, writer, &mut number),
        0
    );
    assert_eq!(rt; confluo_take_reader(alloc, &mut log, reader), 0);
    confluo_free_log(alloc, &mut log);
}

fn framed(number: u32, from: u64, count: u64) -> Framed {
    Framed {
        capture: capture_of(number, 1),
        from,
        count,
    }
}

#[test]
fn a_batch_stops_at_the_first_refusal(rt: HostRuntime) {
    let alloc = rt.alloc();
    let mut writer = WriterHandle::none(alloc);
    let mut reader = ReaderHandle::none(alloc);
    let mut offsets = [9u32; 3];
    let mut done = 9;
    let good = [framed(0, 0, 4), framed(1, 4, 0), framed(2, 1, 3)];
    let past = [framed(3, 0, 4), framed(4, 2, 3), framed(5, 0, 4)];
    assert_eq!(rt;
        confluo_append_many(alloc, &mut writer, &good, b"abcd", &mut offsets, &mut done),
        4
    );
    assert_eq!(rt; done, 0);
    opened(&rt, alloc, SETUP, &mut writer, &mut reader);
    let cases = [
        (&good[..], 2, 2, 0, [9, 9]),
        (&good[..], 3, 0, 3, [0, 1]),
        (&past[..], 3, 9, 1, [3, 1]),
        (&past[..], 3, 6, 0, [3, 1]),
    ];
    for (frames, room, code, count, front) in cases {
        let offsets = &mut offsets[..room];
        assert_eq!(rt;
            confluo_append_many(alloc, &mut writer, frames, b"abcd", offsets, &mut done),
            code
        );
        assert_eq!(rt; done, count);
        assert_eq!(rt; [offsets[0], offsets[1]], front);
    }
    confluo_free_writer(alloc, &mut writer);
    confluo_free_reader(alloc, &mut reader);
}

fn number_of(number: u64) -> ShownValue {
    ShownValue {
        number,
        kind: 0,
        length: 0,
        bytes: [0; 16],
    }
}

fn string_of(length: u32, kind: u32) -> ShownValue {
    let mut bytes = [0u8; 16];
    bytes[0] = b'x';
    ShownValue {
        number: 0,
        kind,
        length,
        bytes,
    }
}

#[test]
fn rows_are_read_back(rt: HostRuntime) {
    let alloc = rt.alloc();
    let mut writer = WriterHandle::none(alloc);
    let mut reader = ReaderHandle::none(alloc);
    let (mut offset, mut number, mut count, mut tail) = (9, 9, 9, 9);
    let mut shown = [number_of(7); 4];
    opened(&rt, alloc, ROWS, &mut writer, &mut reader);
    for (tag, code) in [
        (string_of(3, 1), 0),
        (string_of(2, 1), 8),
        (string_of(17, 1), 8),
        (string_of(3, 2), 8),
        (number_of(3), 8),
    ] {
        let row = [number_of(25), number_of(60), tag];
        assert_eq!(rt;
            confluo_append_row(alloc, &mut writer, 6, &row, &mut offset),
            code
        );
    }
    assert_eq!(rt;
        confluo_row(alloc, &mut reader, 0, &mut number, &mut shown, &mut count),
        12
    );
    assert_eq!(rt; confluo_tail(alloc, &mut reader, &mut tail), 0);
    assert_eq!(rt;
        confluo_row(alloc, &mut reader, 0, &mut number, &mut shown, &mut count),
        0
    );
    assert_eq!(rt; (number, count), (6, 3));
    assert_eq!(rt; (shown[0].number, shown[1].number), (25, 60));
    assert_eq!(rt; (shown[2].kind, shown[2].length), (1, 3));
    assert_eq!(rt; shown[2].bytes[0], b'x');
    assert_eq!(rt; shown[3].number, 7);
    confluo_free_writer(alloc, &mut writer);
    confluo_free_reader(alloc, &mut reader);
}

#[test]
fn a_writer_comes_back(rt: HostRuntime) {
    let alloc = rt.alloc();
    let mut log = LogHandle::none(alloc);
    let mut writer = WriterHandle::none(alloc);
    let mut other = WriterHandle::none(alloc);
    let mut fault = Fault { line: 0, code: 0 };
    let (mut number, mut offset) = (9, 9);
    assert_eq!(rt;
        confluo_open(alloc, &mut log, SETUP, &sizes_of(4, 1), &mut fault),
        0
    );
    for place in 0..2 {
        assert_eq!(rt;
            confluo_take_writer(alloc, &mut log, &mut writer, &mut number),
            0
        );
        assert_eq!(rt;
            confluo_take_writer(alloc, &mut log, &mut other, &mut number),
            5
        );
        assert_eq!(rt;
            confluo_append(alloc, &mut writer, &capture_of(5, 1), &[0], &mut offset),
            0
        );
        assert_eq!(rt; (number, offset), (0, place));
        confluo_free_writer(alloc, &mut writer);
    }
    confluo_free_log(alloc, &mut log);
}

#[test]
fn a_writer_that_is_replaced_comes_back(rt: HostRuntime) {
    let alloc = rt.alloc();
    let mut log = LogHandle::none(alloc);
    let mut writer = WriterHandle::none(alloc);
    let mut other = WriterHandle::none(alloc);
    let mut fault = Fault { line: 0, code: 0 };
    let mut number = 9;
    assert_eq!(rt;
        confluo_open(alloc, &mut log, SETUP, &sizes_of(4, 2), &mut fault),
        0
    );
    for expected in [1, 0] {
        assert_eq!(rt;
            confluo_take_writer(alloc, &mut log, &mut writer, &mut number),
            0
        );
        assert_eq!(rt; number, expected);
    }
    assert_eq!(rt;
        confluo_take_writer(alloc, &mut log, &mut other, &mut number),
        0
    );
    assert_eq!(rt; number, 1);
    confluo_free_writer(alloc, &mut other);
    confluo_free_writer(alloc, &mut writer);
    confluo_free_log(alloc, &mut log);
}

#[test]
fn a_line_says_a_question(rt: HostRuntime) {
    let alloc = rt.alloc();
    let mut writer = WriterHandle::none(alloc);
    let mut reader = ReaderHandle::none(alloc);
    let cases = [
        (&b"ask some list len>50"[..], 0, (9, 9), 1),
        (b"ask all list *", 3, (7, 5), 9),
        (b"ask some find len 1 2", 3, (7, 6), 9),
        (b"index i len", 10, (9, 9), 9),
        (b"ask a list *\nask b list *", 10, (9, 9), 9),
    ];
    opened(&rt, alloc, ROWS, &mut writer, &mut reader);
    let mut offset = 9;
    let row = [number_of(25), number_of(60), string_of(3, 1)];
    assert_eq!(rt;
        confluo_append_row(alloc, &mut writer, 6, &row, &mut offset),
        0
    );
    for (line, code, place, tail) in cases {
        let mut fault = Fault { line: 9, code: 9 };
        let mut head = Head {
            tail: 9,
            kind: 9,
            count: 9,
        };
        assert_eq!(rt;
            confluo_ask_text(alloc, &mut reader, line, &mut head, &mut fault),
            code
        );
        assert_eq!(rt; (fault.line, fault.code), place);
        assert_eq!(rt; head.tail, tail);
    }
    confluo_free_writer(alloc, &mut writer);
    confluo_free_reader(alloc, &mut reader);
}

#[test]
fn a_report_has_one_tail(rt: HostRuntime) {
    let alloc = rt.alloc();
    let mut writer = WriterHandle::none(alloc);
    let mut reader = ReaderHandle::none(alloc);
    let (mut offset, mut tail, mut count) = (9, 9, 9);
    let mut head = Head {
        tail: 9,
        kind: 9,
        count: 9,
    };
    let mut words = [9u64; 5];
    let mut merged = [9u64; 6];
    opened(&rt, alloc, ROWS, &mut writer, &mut reader);
    for (seen, code) in [(0, 0), (1, 0)] {
        assert_eq!(rt; confluo_ask_seen(alloc, &mut reader, 0, &mut head), code);
        assert_eq!(rt; (head.tail, head.kind, head.count), (seen, 1, 4));
        let row = [number_of(25), number_of(60), string_of(3, 1)];
        assert_eq!(rt;
            confluo_append_row(alloc, &mut writer, 6, &row, &mut offset),
            0
        );
        if seen == 0 {
            assert_eq!(rt; confluo_tail(alloc, &mut reader, &mut tail), 0);
        }
    }
    assert_eq!(rt; confluo_ask_seen(alloc, &mut reader, 1, &mut head), 10);
    assert_eq!(rt; confluo_groups(alloc, &mut reader, 0, &mut head), 11);
    assert_eq!(rt; confluo_groups(alloc, &mut reader, 2, &mut head), 11);
    assert_eq!(rt; confluo_groups(alloc, &mut reader, 1, &mut head), 0);
    assert_eq!(rt; (head.tail, head.kind, head.count), (1, 4, 5));
    assert_eq!(rt; confluo_words(alloc, &mut reader, 0, &mut words), 5);
    assert_eq!(rt; words, [2, 1, 60, 60, 60]);
    let more = [1, 1, 5, 5, 5, 2, 2, 9, 4, 5];
    for (other, room, code) in [(&more[..9], 6, 14), (&words[..], 4, 2), (&words[..], 6, 0)] {
        let out = &mut merged[..room];
        assert_eq!(rt; confluo_merge(alloc, &words, other, out, &mut count), code);
        assert_eq!(rt; count, if code == 0 { 5 } else { 9 });
    }
    assert_eq!(rt; merged, [2, 2, 120, 60, 60, 9]);
    confluo_free_writer(alloc, &mut writer);
    confluo_free_reader(alloc, &mut reader);
}

const KEYED: &[u8] =
    b"schema records ts:u64,key:u16,len:u32\nwidth 10\nfilter f *\naggregate a f len by key\ntrigger two a count >= 2\ntrigger ten a count >= 10\nask a2 fired two\nask a10 fired ten\nask parts groups a\n";

#[test]
fn marks_and_groups_have_two_keys(rt: HostRuntime) {
    let alloc = rt.alloc();
    let mut writer = WriterHandle::none(alloc);
    let mut reader = ReaderHandle::none(alloc);
    let (mut offset, mut tail) = (9, 9);
    let mut head = Head {
        tail: 9,
        kind: 9,
        count: 9,
    };
    opened(&rt, alloc, KEYED, &mut writer, &mut reader);
    for (key, len) in [(7, 10), (8, 25), (7, 20)] {
        assert_eq!(rt;
            confluo_append_values(alloc, &mut writer, 5, &[25, key, len], &mut offset),
            0
        );
    }
    assert_eq!(rt; confluo_tail(alloc, &mut reader, &mut tail), 0);
    for lane in 0..3 {
        assert_eq!(rt; confluo_groups(alloc, &mut reader, lane, &mut head), 11);
    }
    let cases = [
        (0, 5, 3, [2, 7, 2, 9, 9, 9, 9, 9, 9, 9, 9, 9]),
        (1, 5, 0, [9; 12]),
        (2, 6, 12, [2, 7, 2, 30, 10, 20, 2, 8, 1, 25, 25, 25]),
    ];
    for (question, kind, count, told) in cases {
        let mut words = [9u64; 12];
        assert_eq!(rt; confluo_ask(alloc, &mut reader, question, &mut head), 0);
        assert_eq!(rt; (head.tail, head.kind, head.count), (3, kind, count));
        assert_eq!(rt;
            confluo_words(alloc, &mut reader, 0, &mut words) as u64,
            count
        );
        assert_eq!(rt; words, told);
    }
    confluo_free_writer(alloc, &mut writer);
    confluo_free_reader(alloc, &mut reader);
}

#[test]
fn a_setup_names_its_parts(rt: HostRuntime) {
    let alloc = rt.alloc();
    let mut log = LogHandle::none(alloc);
    let mut fault = Fault { line: 0, code: 0 };
    let (mut count, mut number, mut width) = (9, 9, 9);
    let mut name = [b'.'; 2];
    assert_eq!(rt; confluo_width(alloc, &mut log, &mut width), 4);
    assert_eq!(rt;
        confluo_open(alloc, &mut log, ROWS, &sizes_of(4, 1), &mut fault),
        0
    );
    for (sort, place, code, long, front) in [
        (2, 0, 13, 9, b'.'),
        (4, 0, 13, 9, b'.'),
        (0, 2, 0, 3, b't'),
        (1, 1, 0, 1, b'a'),
        (3, 1, 13, 1, b'a'),
    ] {
        assert_eq!(rt;
            confluo_name(alloc, &mut log, sort, place, &mut name, &mut count),
            code
        );
        assert_eq!(rt; (count, name[0]), (long, front));
    }
    let mut about = About {
        kind: 9,
        of: 9,
        part: 9,
        op: 9,
        low: 9,
        high: 9,
        size: 9,
        reserved: 9,
    };
    for (sort, place, kind, of, size) in [(0, 2, 0, 0, 3), (1, 1, 2, 0, 1), (3, 0, 6, 1, 0)] {
        assert_eq!(rt; confluo_tell(alloc, &mut log, sort, place, &mut about), 0);
        assert_eq!(rt; (about.kind, about.of, about.size), (kind, of, size));
    }
    assert_eq!(rt; confluo_question(alloc, &mut log, b"some", &mut number), 10);
    assert_eq!(rt; confluo_question(alloc, &mut log, b"all", &mut number), 0);
    assert_eq!(rt; confluo_width(alloc, &mut log, &mut width), 0);
    assert_eq!(rt; (number, width), (0, 10));
    confluo_free_log(alloc, &mut log);
}

// A log with two writers, each of which has appended one row.
fn two_rows(
    alloc: Global,
    log: &mut LogHandle,
    first: &mut WriterHandle,
    second: &mut WriterHandle,
) -> u32 {
    let mut fault = Fault { line: 0, code: 0 };
    let (mut number, mut offset) = (9, 9);
    let setup = b"schema records ts:u64\nask all list *\n";
    let opened = confluo_open(alloc, log, setup, &sizes_of(4, 2), &mut fault);
    let taken = confluo_take_writer(alloc, log, first, &mut number);
    let appended = confluo_append_values(alloc, first, 8, &[1], &mut offset);
    let taken_too = confluo_take_writer(alloc, log, second, &mut number);
    let appended_too = confluo_append_values(alloc, second, 7, &[2], &mut offset);
    opened | taken | appended | taken_too | appended_too
}

#[test]
fn a_log_is_closed(rt: HostRuntime) {
    let alloc = rt.alloc();
    let mut log = LogHandle::none(alloc);
    let mut first = WriterHandle::none(alloc);
    let mut second = WriterHandle::none(alloc);
    let mut reader = ReaderHandle::none(alloc);
    let mut text = [b'.'; 45];
    let mut count = 99;
    assert_eq!(rt; confluo_close(alloc, &mut log, &mut reader), 4);
    assert_eq!(rt; two_rows(alloc, &mut log, &mut first, &mut second), 0);
    assert_eq!(rt; confluo_close(alloc, &mut log, &mut reader), 15);
    assert_eq!(rt;
        confluo_report(alloc, &mut reader, &mut text, &mut count),
        4
    );
    assert_eq!(rt; count, 99);
    confluo_free_writer(alloc, &mut second);
    assert_eq!(rt; confluo_close(alloc, &mut log, &mut reader), 15);
    confluo_free_writer(alloc, &mut first);
    assert_eq!(rt; confluo_close(alloc, &mut log, &mut reader), 0);
    assert_eq!(rt; confluo_close(alloc, &mut log, &mut reader), 4);
    assert_eq!(rt;
        confluo_report(alloc, &mut reader, &mut text, &mut count),
        0
    );
    assert_eq!(rt; count, 44);
    assert_eq!(rt;
        &text[..],
        b"records 2\nask all list 2: 7 8\norder 1*1 0*1\n.".as_slice()
    );
}

#[test]
fn codes_have_texts(rt: HostRuntime) {
    let mut out = [b'.'; 6];
    assert_eq!(rt; copy_part(message_of(0), 0, &mut out), 4);
    assert_eq!(rt; copy_part(message_of(6), 4, &mut out), 6);
    assert_eq!(rt; &out[..], b"log is".as_slice());
}
