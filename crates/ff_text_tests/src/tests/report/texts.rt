// Sessions with their texts.

/// A session whose texts are tested.
#[derive(Clone, Copy)]
pub enum Made {
    WithoutCalls,
    TwoStoresAndALoad,
    StoreIntoAPromotion,
    MarkOfAPromotedPage,
    /// Of which so many posts arrive.
    MarkOfALine(u32),
    MarkOutOfRange,
    /// The remount met a fault.
    WithFault,
    /// The power went in the remount.
    WithoutPower,
    EveryForm,
}

/// A text of a session, with the number that its first line has.
#[derive(Clone, Copy)]
pub enum Text {
    Session(u32),
    Summary(u32),
}

pub static TEXTS: [(Made, Text, &str); 12] = [
    (
        Made::WithoutCalls,
        Text::Session(0),
        "session 0\n\
        turns promote 0 0 evict 0 0 collect 0 0 drain 0 0\n\
        lines device 0 host 0 landed 0 dropped 0\n\
        moves promoted 0 retreated 0\n\
        flash reads 0 programs 0 seals 0 erases 0 faults 0\n\
        kept 0\n\
        pages 0\n\
        end\n",
    ),
    (
        Made::TwoStoresAndALoad,
        Text::Session(0),
        "session 0\n\
        0 0 store 10 aabb done\n\
        0 1 store 11 cc done\n\
        0 2 load 10 3 aacc00\n\
        turns promote 0 0 evict 0 0 collect 0 0 drain 0 0\n\
        lines device 3 host 0 landed 0 dropped 0\n\
        moves promoted 0 retreated 0\n\
        flash reads 0 programs 0 seals 0 erases 0 faults 0\n\
        kept 3\n\
        pages 1\n\
        line 0 0 00000000000000000000aacc00000000000000000000000000000000000000000000000000000\
        000000000000000000000000000000000000000000000000000\n\
        end\n",
    ),
    (
        Made::StoreIntoAPromotion,
        Text::Session(0),
        "session 0\n\
        0 0 load 0 1 00\n\
        0 1 load 0 1 00\n\
        0 2 load 0 1 00\n\
        0 3 load 0 1 00\n\
        0 4 store 320 111111111111111111111111111111111111111111111111111111111111111111111111\
        11111111111111111111111111111111111111111111111111111111 done\n\
        0 5 load 320 2 1111\n\
        turns promote 13 13 evict 0 0 collect 0 0 drain 0 0\n\
        lines device 4 host 2 landed 5 dropped 1\n\
        moves promoted 1 retreated 0\n\
        flash reads 0 programs 0 seals 0 erases 0 faults 0\n\
        kept 6\n\
        pages 0\n\
        end\n",
    ),
    (
        Made::MarkOfAPromotedPage,
        Text::Session(0),
        "session 0\n\
        0 0 load 0 1 00\n\
        0 1 load 0 1 00\n\
        0 2 load 0 1 00\n\
        0 3 load 0 1 00\n\
        0 4 store 0 aa done\n\
        0 5 store 576 bb done\n\
        0 6 mark 0 done\n\
        0 7 load 0 1 aa\n\
        0 8 load 576 1 bb\n\
        turns promote 12 12 evict 0 0 collect 0 0 drain 0 0\n\
        lines device 6 host 2 landed 7 dropped 0\n\
        moves promoted 1 retreated 1\n\
        flash reads 0 programs 0 seals 0 erases 0 faults 0\n\
        kept 9\n\
        pages 1\n\
        mark 0\n\
        line 0 0 aa000000000000000000000000000000000000000000000000000000000000000000000000000\
        000000000000000000000000000000000000000000000000000\n\
        line 0 9 bb000000000000000000000000000000000000000000000000000000000000000000000000000\
        000000000000000000000000000000000000000000000000000\n\
        end\n",
    ),
    (
        Made::MarkOfALine(0),
        Text::Session(0),
        "session 0\n\
        0 0 mark 0 9+1 done\n\
        0 1 store 0 aa done\n\
        0 2 store 576 bb done\n\
        turns promote 0 0 evict 0 0 collect 0 0 drain 0 0\n\
        lines device 2 host 0 landed 0 dropped 0\n\
        moves promoted 0 retreated 0\n\
        flash reads 0 programs 0 seals 0 erases 0 faults 0\n\
        kept 1\n\
        pages 0\n\
        mark 0 0000000000000200\n\
        end\n",
    ),
    (
        Made::MarkOfALine(1),
        Text::Session(0),
        "session 0\n\
        0 0 mark 0 9+1 done\n\
        0 1 store 0 aa done\n\
        0 2 store 576 bb done\n\
        turns promote 0 0 evict 0 0 collect 0 0 drain 0 0\n\
        lines device 2 host 0 landed 0 dropped 0\n\
        moves promoted 0 retreated 0\n\
        flash reads 0 programs 0 seals 0 erases 0 faults 0\n\
        kept 2\n\
        pages 1\n\
        mark 0 0000000000000200\n\
        line 0 0 aa000000000000000000000000000000000000000000000000000000000000000000000000000\
        000000000000000000000000000000000000000000000000000\n\
        end\n",
    ),
    (
        Made::MarkOutOfRange,
        Text::Session(0),
        "session 0\n\
        0 0 mark 0 60+5 range\n\
        turns promote 0 0 evict 0 0 collect 0 0 drain 0 0\n\
        lines device 0 host 0 landed 0 dropped 0\n\
        moves promoted 0 retreated 0\n\
        flash reads 0 programs 0 seals 0 erases 0 faults 0\n\
        kept 1\n\
        pages 0\n\
        end\n",
    ),
    (
        Made::WithFault,
        Text::Session(0),
        "session 0\n\
        turns promote 0 0 evict 0 0 collect 0 0 drain 0 0\n\
        lines device 0 host 0 landed 0 dropped 0\n\
        moves promoted 0 retreated 0\n\
        flash reads 0 programs 0 seals 0 erases 0 faults 0\n\
        kept 0\n\
        no image fault\n\
        end\n",
    ),
    (
        Made::WithoutPower,
        Text::Session(0),
        "session 0\n\
        turns promote 0 0 evict 0 0 collect 0 0 drain 0 0\n\
        lines device 0 host 0 landed 0 dropped 0\n\
        moves promoted 0 retreated 0\n\
        flash reads 0 programs 0 seals 0 erases 0 faults 0\n\
        kept 0\n\
        no image off\n\
        end\n",
    ),
    (
        Made::EveryForm,
        Text::Session(4294967295),
        "session 4294967295\n\
        65535 4294967295 store 4294967295 4142434445464748494a4b4c4d4e4f505152535455565758595a\
        6162636465666768696a6b6c6d6e6f707172737475767778797a303132333435363738392b2f 414243444\
        5464748494a4b4c4d4e4f505152535455565758595a6162636465666768696a6b6c6d6e6f7071727374757\
        67778797a303132333435363738392b2f\n\
        0 0 store 5 - done\n\
        65535 4294967295 verify spent\n\
        65535 4294967295 release 4294967295 0+63 full\n\
        0 1 mark 2 1+64 fault\n\
        0 2 load 0 0 -\n\
        turns promote 4294967295 4294967288 evict 10 3 collect 9 2 drain 8 1\n\
        lines device 18446744073709551615 host 1 landed 2 dropped 3\n\
        moves promoted 4 retreated 5\n\
        flash reads 6 programs 7 seals 8 erases 9 faults 18446744073709551614\n\
        kept 4294967295\n\
        pages 1\n\
        mark 0 fffffffffffffffe\n\
        line 0 0 fffffffffffffffffffffffffffffffffffffffffffffffffffffffffffffffffffffffffffff\
        fffffffffffffffffffffffffffffffffffffffffffffffffff\n\
        line 0 9 0a0a0a0a0a0a0a0a0a0a0a0a0a0a0a0a0a0a0a0a0a0a0a0a0a0a0a0a0a0a0a0a0a0a0a0a0a0a0\
        a0a0a0a0a0a0a0a0a0a0a0a0a0a0a0a0a0a0a0a0a0a0a0a0a0a\n\
        end\n",
    ),
    (
        Made::TwoStoresAndALoad,
        Text::Summary(7),
        "load 7\n\
        calls 3\n\
        turns promote 0 0 evict 0 0 collect 0 0 drain 0 0\n\
        lines device 3 host 0 landed 0 dropped 0\n\
        moves promoted 0 retreated 0\n\
        flash reads 0 programs 0 seals 0 erases 0 faults 0\n\
        kept 3\n\
        pages 1\n\
        end\n",
    ),
    (
        Made::WithoutPower,
        Text::Summary(4294967295),
        "load 4294967295\n\
        calls 0\n\
        turns promote 0 0 evict 0 0 collect 0 0 drain 0 0\n\
        lines device 0 host 0 landed 0 dropped 0\n\
        moves promoted 0 retreated 0\n\
        flash reads 0 programs 0 seals 0 erases 0 faults 0\n\
        kept 0\n\
        no image off\n\
        end\n",
    ),
];
