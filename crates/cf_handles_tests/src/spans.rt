use cf_handles::logs::{confluo_free_log, confluo_open, confluo_take_reader, confluo_take_writer};
use cf_handles::readers::{confluo_free_reader, confluo_tail};
use cf_handles::span_report::confluo_span_report;
use cf_handles::spans::{
    confluo_free_span, confluo_span_add, confluo_span_ask, confluo_span_ask_seen,
    confluo_span_drop_first, confluo_span_groups, confluo_span_logs, confluo_span_of,
    confluo_span_row, confluo_span_tail, confluo_span_words,
};
use cf_handles::writers::{confluo_append_values, confluo_free_writer};
use cf_handles::{LogHandle, ReaderHandle, SpanHandle, WriterHandle};
use cf_store::{Fault, Head, ShownValue, Sizes};
use std::alloc::Global;
use std::process::Abort;
use std::test::*;

const ROWS: &[u8] =
    b"schema records ts:u64,len:u32\nwidth 10\nfilter f *\naggregate a f len\ntrigger t a sum > 7\nask all total len *\n";

// Three of the bucket 1 are in the first log, five in the second.
const REPORT: &[u8] =
    b"records 4\nask all total count 4 sum 24 least 3 greatest 9\nalert t 1 8\nalert t 2 9\norder 0*4\n";

const NO_HEAD: Head = Head {
    tail: 9,
    kind: 9,
    count: 9,
};

// Two rows are appended to a log of so many, of which the reader is left.
fn filled<R: Abort>(
    rt: &R,
    alloc: Global,
    capacity: u32,
    first: &[u64],
    second: &[u64],
    reader: &mut ReaderHandle,
) {
    let mut log = LogHandle::none(alloc);
    let mut writer = WriterHandle::none(alloc);
    let mut fault = Fault { line: 0, code: 0 };
    let (mut number, mut offset) = (9, 9);
    let sizes = Sizes {
        capacity,
        writers: 1,
        nodes: 64,
        reserved: 0,
    };
    assert_eq!(rt; confluo_open(alloc, &mut log, ROWS, &sizes, &mut fault), 0);
    assert_eq!(rt;
        confluo_take_writer(alloc, &mut log, &mut writer, &mut number),
        0
    );
    assert_eq!(rt; confluo_take_reader(alloc, &mut log, reader), 0);
    assert_eq!(rt;
        confluo_append_values(alloc, &mut writer, 5, first, &mut offset),
        0
    );
    assert_eq!(rt;
        confluo_append_values(alloc, &mut writer, 5, second, &mut offset),
        0
    );
    confluo_free_writer(alloc, &mut writer);
    confluo_free_log(alloc, &mut log);
}

// A span of two logs of two records.
fn two_logs<R: Abort>(rt: &R, alloc: Global, span: &mut SpanHandle) {
    let mut reader = ReaderHandle::none(alloc);
    let mut next = ReaderHandle::none(alloc);
    filled(rt, alloc, 2, &[1, 7], &[12, 3], &mut reader);
    filled(rt, alloc, 2, &[13, 5], &[25, 9], &mut next);
    assert_eq!(rt; confluo_span_of(alloc, &mut reader, span), 0);
    assert_eq!(rt; confluo_span_of(alloc, &mut reader, span), 4);
    assert_eq!(rt; confluo_span_add(alloc, span, &mut next), 0);
    assert_eq!(rt; confluo_span_add(alloc, span, &mut next), 4);
}

#[test]
fn two_logs_answer_as_one(rt: HostRuntime) {
    let alloc = rt.alloc();
    let mut span = SpanHandle::none(alloc);
    let (mut head, mut tail) = (NO_HEAD, 9);
    let mut words = [0u64; 15];
    assert_eq!(rt; confluo_span_ask(alloc, &mut span, 0, &mut head), 4);
    two_logs(&rt, alloc, &mut span);
    assert_eq!(rt; confluo_span_tail(alloc, &mut span, &mut tail), 0);
    assert_eq!(rt; tail, 4);
    assert_eq!(rt; confluo_span_ask(alloc, &mut span, 1, &mut head), 10);
    assert_eq!(rt; confluo_span_ask(alloc, &mut span, 0, &mut head), 0);
    assert_eq!(rt; (head.tail, head.kind, head.count), (4, 1, 4));
    assert_eq!(rt; confluo_span_words(alloc, &mut span, 0, &mut words), 4);
    assert_eq!(rt; &words[..4], [4, 24, 3, 9].as_slice());
    assert_eq!(rt; confluo_span_groups(alloc, &mut span, 1, &mut head), 0);
    assert_eq!(rt; (head.tail, head.kind, head.count), (4, 4, 15));
    assert_eq!(rt; confluo_span_words(alloc, &mut span, 0, &mut words), 15);
    assert_eq!(rt;
        &words[..],
        [0, 1, 7, 7, 7, 1, 2, 8, 3, 5, 2, 1, 9, 9, 9].as_slice()
    );
    confluo_free_span(alloc, &mut span);
    assert_eq!(rt; confluo_span_tail(alloc, &mut span, &mut tail), 4);
}

#[test]
fn two_logs_report_as_one(rt: HostRuntime) {
    let alloc = rt.alloc();
    let mut span = SpanHandle::none(alloc);
    let (mut tail, mut count) = (9, 9);
    let mut text = [0u8; 92];
    assert_eq!(rt;
        confluo_span_report(alloc, &mut span, &mut text, &mut count),
        4
    );
    assert_eq!(rt; (count, text[0]), (9, 0));
    two_logs(&rt, alloc, &mut span);
    assert_eq!(rt; confluo_span_tail(alloc, &mut span, &mut tail), 0);
    assert_eq!(rt;
        confluo_span_report(alloc, &mut span, &mut text[..3], &mut count),
        0
    );
    assert_eq!(rt; (count, text[2], text[3]), (92, b'c', 0));
    assert_eq!(rt;
        confluo_span_report(alloc, &mut span, &mut text, &mut count),
        0
    );
    assert_eq!(rt; &text[..], REPORT);
    confluo_free_span(alloc, &mut span);
}

#[test]
fn the_first_log_is_let_go(rt: HostRuntime) {
    let alloc = rt.alloc();
    let mut span = SpanHandle::none(alloc);
    let (mut head, mut logs, mut number, mut count) = (NO_HEAD, 9, 9, 9);
    let mut words = [0u64; 4];
    let mut values = [ShownValue {
        number: 9,
        kind: 9,
        length: 9,
        bytes: [9; 16],
    }; 2];
    two_logs(&rt, alloc, &mut span);
    assert_eq!(rt; confluo_span_ask(alloc, &mut span, 0, &mut head), 0);
    assert_eq!(rt;
        confluo_span_row(alloc, &mut span, 2, &mut number, &mut values, &mut count),
        0
    );
    assert_eq!(rt; (number, count), (5, 2));
    assert_eq!(rt; (values[0].number, values[1].number), (13, 5));
    assert_eq!(rt; confluo_span_drop_first(alloc, &mut span), 0);
    assert_eq!(rt; confluo_span_logs(alloc, &mut span, &mut logs), 0);
    assert_eq!(rt; logs, 1);
    assert_eq!(rt; confluo_span_ask_seen(alloc, &mut span, 0, &mut head), 0);
    assert_eq!(rt; (head.tail, head.kind, head.count), (2, 1, 4));
    assert_eq!(rt; confluo_span_words(alloc, &mut span, 0, &mut words), 4);
    assert_eq!(rt; &words[..], [2, 14, 5, 9].as_slice());
    assert_eq!(rt; confluo_span_drop_first(alloc, &mut span), 17);
    confluo_free_span(alloc, &mut span);
}

#[test]
fn a_log_of_another_size_is_refused(rt: HostRuntime) {
    let alloc = rt.alloc();
    let mut span = SpanHandle::none(alloc);
    let mut reader = ReaderHandle::none(alloc);
    let mut tail = 9;
    two_logs(&rt, alloc, &mut span);
    filled(&rt, alloc, 3, &[1, 7], &[12, 3], &mut reader);
    assert_eq!(rt; confluo_span_add(alloc, &mut span, &mut reader), 16);
    assert_eq!(rt; confluo_tail(alloc, &mut reader, &mut tail), 0);
    assert_eq!(rt; tail, 2);
    confluo_free_reader(alloc, &mut reader);
    confluo_free_span(alloc, &mut span);
}
