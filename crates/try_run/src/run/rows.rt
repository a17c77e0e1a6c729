//! Worked scripts with what they print.

/// Scripts that are played to their end.
pub const ROWS: &[(&str, &str)] = &[
    // two texts at one place: who comes first stands first
    (
        "create ab\nlogin A\nlogin B\ninsert A 1 X\ninsert B 1 Y\nsubmit A\nsubmit B\ntake A\ntake B\npush B\nhear B\nshow B\npush B\nhear B\nshow B\nhead\n",
        "create rev 0 Z:1>2+2$ab\nlogin A 1.1 rev 0\nlogin B 1.2 rev 0\ninsert A ok\ninsert B ok\nsubmit A base 0 Z:3>1=1+1$X\nsubmit B base 0 Z:3>1=1+1$Y\ntake A rev 1 Z:3>1=1+1$X\ntake B rev 2 Z:4>1=2+1$Y\npush B 1\nhear B new 1\nshow B rev 1 sent \"aXYb\\n\"\npush B 2\nhear B commit 2\nshow B rev 2 clean \"aXYb\\n\"\nhead 2 \"aXYb\\n\"\n",
    ),
    // a newline at that place: the other's text stands before it
    (
        "create ab\nlogin A\nlogin B\ninsert A 1 \\n\ninsert B 1 Y\nsubmit A\nsubmit B\ntake A\ntake B\nhead\n",
        "create rev 0 Z:1>2+2$ab\nlogin A 1.1 rev 0\nlogin B 1.2 rev 0\ninsert A ok\ninsert B ok\nsubmit A base 0 Z:3>1=1|1+1$\\n\nsubmit B base 0 Z:3>1=1+1$Y\ntake A rev 1 Z:3>1=1|1+1$\\n\ntake B rev 2 Z:4>1=1+1$Y\nhead 2 \"aY\\nb\\n\"\n",
    ),
    // both delete, one more than the other
    (
        "create ab\nlogin A\nlogin B\ndelete A 0 1\ndelete B 0 2\nsubmit A\nsubmit B\ntake A\ntake B\nhead\n",
        "create rev 0 Z:1>2+2$ab\nlogin A 1.1 rev 0\nlogin B 1.2 rev 0\ndelete A ok\ndelete B ok\nsubmit A base 0 Z:3<1-1$\nsubmit B base 0 Z:3<2-2$\ntake A rev 1 Z:3<1-1$\ntake B rev 2 Z:2<1-1$\nhead 2 \"\\n\"\n",
    ),
    // two colours of one unit: the lesser value stands, whoever comes first
    (
        "create ab\nlogin A\nlogin B\nformat A 0 1 color red\nformat B 0 1 color blue\nsubmit A\nsubmit B\ntake A\ntake B\nmarks\n",
        "create rev 0 Z:1>2+2$ab\nlogin A 1.1 rev 0\nlogin B 1.2 rev 0\nformat A ok\nformat B ok\nsubmit A base 0 Z:3>0*0=1$\nsubmit B base 0 Z:3>0*0=1$\ntake A rev 1 Z:3>0*0=1$\ntake B rev 2 Z:3>0*0=1$\nmarks 2 *0+1|1+2 {\"nextNum\":1,\"numToAttrib\":{\"0\":[\"color\",\"blue\"]}}\n",
    ),
    (
        "create ab\nlogin A\nlogin B\nformat A 0 1 color red\nformat B 0 1 color blue\nsubmit A\nsubmit B\ntake B\ntake A\nmarks\n",
        "create rev 0 Z:1>2+2$ab\nlogin A 1.1 rev 0\nlogin B 1.2 rev 0\nformat A ok\nformat B ok\nsubmit A base 0 Z:3>0*0=1$\nsubmit B base 0 Z:3>0*0=1$\ntake B rev 1 Z:3>0*0=1$\ntake A nop 1\nmarks 1 *0+1|1+2 {\"nextNum\":1,\"numToAttrib\":{\"0\":[\"color\",\"blue\"]}}\n",
    ),
    // an edit that cuts a pair
    (
        "create a😀\nguest G\ninject G 0 Z:4>1=2+1$x\ntake G\nhead\n",
        "create rev 0 Z:1>3+3$a😀\nguest G 1.1 rev 0\ninject G ok\ntake G refused fit cutspair 2\nhead 0 \"a😀\\n\"\n",
    ),
    // all is deleted: nobody's revision brings the newline back
    (
        "create a\nlogin A\ndelete A 0 2\nsubmit A\ntake A\nhead\npush A\nhear A\nshow A\npush A\nhear A\nshow A\n",
        "create rev 0 Z:1>1+1$a\nlogin A 1.1 rev 0\ndelete A ok\nsubmit A base 0 Z:2<2|1-2$\ntake A rev 1 fixed Z:2<2|1-2$\nhead 2 \"\\n\"\npush A 1\nhear A commit 1\nshow A rev 1 clean \"\"\npush A 2\nhear A new 2\nshow A rev 2 clean \"\\n\"\n",
    ),
    // a base that isn't there yet
    (
        "create ab\nguest G\nguest H\ninject G 1 Z:3>1=1+1$X\ntake G\ninject H 0 Z:3>1=1+1$X\ntake H\n",
        "create rev 0 Z:1>2+2$ab\nguest G 1.1 rev 0\nguest H 1.2 rev 0\ninject G ok\ntake G refused nobase 0\ninject H ok\ntake H rev 1 Z:3>1=1+1$X\n",
    ),
    // a commit that was lost on its way, and one that had not been taken
    (
        "create ab\nlogin A\ninsert A 1 X\nsubmit A\ntake A\nlose A\nresume A\npush A\nhear A\nsubmit A\nshow A\n",
        "create rev 0 Z:1>2+2$ab\nlogin A 1.1 rev 0\ninsert A ok\nsubmit A base 0 Z:3>1=1+1$X\ntake A rev 1 Z:3>1=1+1$X\nlose A ok\nresume A 1.2 head 1\npush A 1\nhear A commit 1\nsubmit A none\nshow A rev 1 clean \"aXb\\n\"\n",
    ),
    (
        "create ab\nlogin A\ninsert A 1 X\nsubmit A\nlose A\nresume A\nlate A\nsubmit A\ntake A\npush A\nhear A\nhead\n",
        "create rev 0 Z:1>2+2$ab\nlogin A 1.1 rev 0\ninsert A ok\nsubmit A base 0 Z:3>1=1+1$X\nlose A ok\nresume A 1.2 head 0\nlate A refused dead replaced 1.2\nsubmit A base 0 Z:3>1=1+1$X\ntake A rev 1 Z:3>1=1+1$X\npush A 1\nhear A commit 1\nhead 1 \"aXb\\n\"\n",
    ),
    // one's own text stays before another's
    (
        "create ab\nlogin A\nlogin B\ninsert A 1 X\nsubmit A\ntake A\ninsert B 1 Z\npush B\nhear B\nshow B\nsubmit B\ntake B\nhead\n",
        "create rev 0 Z:1>2+2$ab\nlogin A 1.1 rev 0\nlogin B 1.2 rev 0\ninsert A ok\nsubmit A base 0 Z:3>1=1+1$X\ntake A rev 1 Z:3>1=1+1$X\ninsert B ok\npush B 1\nhear B new 1\nshow B rev 1 local \"aZXb\\n\"\nsubmit B base 1 Z:4>1=1+1$Z\ntake B rev 2 Z:4>1=1+1$Z\nhead 2 \"aZXb\\n\"\n",
    ),
    // a pad that is deleted and made again is another
    (
        "create a\nlogin A\ndrop\npush A\nhear A\ncreate b\nresume A\n",
        "create rev 0 Z:1>1+1$a\nlogin A 1.1 rev 0\ndrop ok\npush A closed deleted\nhear A closed deleted\ncreate rev 0 Z:1>1+1$b\nresume A refused gone\n",
    ),
    // the server sets the text
    (
        "create ab\nset xy\n",
        "create rev 0 Z:1>2+2$ab\nset rev 1 Z:3>0-2+2$xy\n",
    ),
    (
        "create ab\nset xy\\n\n",
        "create rev 0 Z:1>2+2$ab\nset rev 1 Z:3>0|1-3|1+3$xy\\n\n",
    ),
];

/// Edits that are taken back, and made again.
pub const UNDOS: &[(&str, &str)] = &[
    // another's Z in the midst of what is taken back stays
    (
        "create ab\nlogin A\nlogin B\ninsert A 1 XY\nsubmit A\ntake A\npush A\nhear A\npush B\nhear B\ninsert B 2 Z\nsubmit B\ntake B\npush A\nhear A\nundo A\nshow A\nredo A\nshow A\nredo A\n",
        "create rev 0 Z:1>2+2$ab\nlogin A 1.1 rev 0\nlogin B 1.2 rev 0\ninsert A ok\nsubmit A base 0 Z:3>2=1+2$XY\ntake A rev 1 Z:3>2=1+2$XY\npush A 1\nhear A commit 1\npush B 1\nhear B new 1\ninsert B ok\nsubmit B base 1 Z:5>1=2+1$Z\ntake B rev 2 Z:5>1=2+1$Z\npush A 2\nhear A new 2\nundo A Z:6<2=1-1=1-1$\nshow A rev 2 local \"aZb\\n\"\nredo A Z:4>2=1+1=1+1$XY\nshow A rev 2 local \"aXZYb\\n\"\nredo A none\n",
    ),
    // what comes back stands where it stood among what is left
    (
        "create abc\nlogin A\nlogin B\ndelete A 1 1\nsubmit A\ntake A\npush A\nhear A\npush B\nhear B\ndelete B 0 1\nsubmit B\ntake B\npush A\nhear A\nundo A\nshow A\n",
        "create rev 0 Z:1>3+3$abc\nlogin A 1.1 rev 0\nlogin B 1.2 rev 0\ndelete A ok\nsubmit A base 0 Z:4<1=1-1$\ntake A rev 1 Z:4<1=1-1$\npush A 1\nhear A commit 1\npush B 1\nhear B new 1\ndelete B ok\nsubmit B base 1 Z:3<1-1$\ntake B rev 2 Z:3<1-1$\npush A 2\nhear A new 2\nundo A Z:2>1+1$b\nshow A rev 2 local \"bc\\n\"\n",
    ),
    // what was inserted and deleted takes two undos
    (
        "create b\nlogin A\ninsert A 0 a\ndelete A 0 1\nundo A\nundo A\nshow A\nundo A\n",
        "create rev 0 Z:1>1+1$b\nlogin A 1.1 rev 0\ninsert A ok\ndelete A ok\nundo A Z:2>1+1$a\nundo A Z:3<1-1$\nshow A rev 0 clean \"b\\n\"\nundo A none\n",
    ),
    // edits that set what is there, or remove what isn't
    (
        "create ab\nlogin A\nformat A 0 1 k v\nformat A 0 2 k v\nundo A\nundo A\nformat A 0 1 z \nundo A\nredo A\nredo A\nshow A\n",
        "create rev 0 Z:1>2+2$ab\nlogin A 1.1 rev 0\nformat A ok\nformat A ok\nundo A Z:3>0=1*0=1$\nundo A Z:3>0*0=1$\nformat A ok\nundo A Z:3>0$\nredo A Z:3>0$\nredo A none\nshow A rev 0 local \"ab\\n\"\n",
    ),
];

/// What stands before a crash within a take, and what it prints.
pub const BEFORE: (&str, &str) = (
    "create ab\nlogin A\ninsert A 1 X\nsubmit A\n",
    "create rev 0 Z:1>2+2$ab\nlogin A 1.1 rev 0\ninsert A ok\nsubmit A base 0 Z:3>1=1+1$X\n",
);

/// Crashes after so many calls of the disk, with what was on its way.
pub const CRASHES_BEFORE_THE_GATE: &[&str] = &[
    "0 old", "0 new", "0 01", "0 07", "1 old", "1 new", "1 01", "1 07", "2 old", "2 new", "2 01",
    "2 07", "3 old", "3 07",
];

pub const CRASHES_BEHIND_THE_GATE: &[&str] = &["3 new", "3 01", "4 old", "4 new", "4 01", "4 07"];

/// What is done after the crash.
pub const AFTER: &str = "resume A\npush A\nhear A\nsubmit A\n";

/// What that prints where the take was not kept, and where it was.
pub const LOST: &str =
    "crash epoch 2 head 0\nresume A 2.1 head 0\npush A none\nhear A none\nsubmit A base 0 Z:3>1=1+1$X\n";

pub const KEPT: &str =
    "crash epoch 2 head 1\nresume A 2.1 head 1\npush A 1\nhear A commit 1\nsubmit A none\n";
