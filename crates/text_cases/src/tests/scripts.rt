//! Worked scripts.
use super::is_text;
use co_script::{fits, print_script, read_script};
use co_text::{Cause, ScriptFault};

#[test]
fn one_firing_is_read_and_printed(rt: HostRuntime) {
    let text =
        b"callout 1\nfuncs 1\ntimer 0 mpsafe\nclient 0\nreset 0 =1.5 f0 a7\ncpu 0\ntick 1.5\n".as_slice();
    let wanted =
        b"callout 1\nhz 1000\ncpus 1\nwheel 256\nfuncs 1\ntimer 0 mpsafe\nfunc 0\nclient 0\n\
        reset 0 =u6442450944 f0 a7\ncpu 0\ntick u6442450944\n"
            .as_slice();
    let script = read_script(rt.alloc(), text).expect(&rt, "no script");
    let printed = print_script(rt.alloc(), &script).expect(&rt, "no memory");
    let fits = fits(&script);
    drop(script);
    assert!(rt; fits);
    is_text(&rt, printed, wanted);
}

#[test]
fn first_bad_line_is_named(rt: HostRuntime) {
    let text =
        b"callout 1\nfuncs 1\ntimer 0 mpsafe\nclient 0\nreset 0 =1.5 f0 a7\ncpu 0\ntick 1.5\ntick 1\n";
    let wanted = ScriptFault::Bad {
        line: 8,
        cause: Cause::Falls,
    };
    assert!(rt; read_script(rt.alloc(), text.as_slice()).err() == Some(wanted));
}
