// Inputs of calls alone, with their status and text.
use super::Case;

pub static CASES: [Case; 10] = [
    (
        "---\n\
        caller,op,a,b\n",
        0,
        "session 0\n\
        turns promote 0 0 evict 0 0 collect 0 0 drain 0 0\n\
        lines device 0 host 0 landed 0 dropped 0\n\
        moves promoted 0 retreated 0\n\
        flash reads 0 programs 0 seals 0 erases 0 faults 0\n\
        kept 0\n\
        pages 0\n\
        end\n",
    ),
    (
        "---\n\
        caller,op,a,b\n\
        0,load,0,8\n",
        0,
        "session 0\n\
        0 0 load 0 8 0000000000000000\n\
        turns promote 0 0 evict 0 0 collect 0 0 drain 0 0\n\
        lines device 1 host 0 landed 0 dropped 0\n\
        moves promoted 0 retreated 0\n\
        flash reads 0 programs 0 seals 0 erases 0 faults 0\n\
        kept 1\n\
        pages 0\n\
        end\n",
    ),
    (
        "---\n\
        caller,op,a,b\n\
        0,store,10,aabb\n\
        0,store,11,cc\n\
        0,load,10,3\n",
        0,
        "session 0\n\
        0 0 store 10 aabb done\n\
        0 1 store 11 cc done\n\
        0 2 load 10 3 aacc00\n\
        turns promote 0 0 evict 0 0 collect 0 0 drain 0 0\n\
        lines device 3 host 0 landed 0 dropped 0\n\
        moves promoted 0 retreated 0\n\
        flash reads 0 programs 0 seals 0 erases 0 faults 0\n\
        kept 3\n\
        pages 1\n\
        line 0 0 00000000000000000000aacc00000000000000000000000000000000000000000000000000000000000000000000000000000000000000000000000000000000\n\
        end\n",
    ),
    (
        "---\n\
        caller,op,a,b\n\
        0,load,65535,1\n\
        0,load,65536,1\n\
        0,load,60,8\n\
        0,load,0,0\n",
        0,
        "session 0\n\
        0 0 load 65535 1 00\n\
        0 1 load 65536 1 range\n\
        0 2 load 60 8 range\n\
        0 3 load 0 0 range\n\
        turns promote 0 0 evict 0 0 collect 0 0 drain 0 0\n\
        lines device 1 host 0 landed 0 dropped 0\n\
        moves promoted 0 retreated 0\n\
        flash reads 0 programs 0 seals 0 erases 0 faults 0\n\
        kept 4\n\
        pages 0\n\
        end\n",
    ),
    (
        "---\n\
        caller,op,a,b\n\
        0,store,65536,aa\n\
        0,store,0,\n",
        0,
        "session 0\n\
        0 0 store 65536 aa range\n\
        0 1 store 0 - range\n\
        turns promote 0 0 evict 0 0 collect 0 0 drain 0 0\n\
        lines device 0 host 0 landed 0 dropped 0\n\
        moves promoted 0 retreated 0\n\
        flash reads 0 programs 0 seals 0 erases 0 faults 0\n\
        kept 2\n\
        pages 0\n\
        end\n",
    ),
    (
        "---\n\
        caller,op,a,b\n\
        0,store,0,aa\n\
        1,load,0,1\n",
        0,
        "session 0\n\
        0 0 store 0 aa done\n\
        1 0 load 0 1 aa\n\
        turns promote 0 0 evict 0 0 collect 0 0 drain 0 0\n\
        lines device 2 host 0 landed 0 dropped 0\n\
        moves promoted 0 retreated 0\n\
        flash reads 0 programs 0 seals 0 erases 0 faults 0\n\
        kept 2\n\
        pages 1\n\
        line 0 0 aa000000000000000000000000000000000000000000000000000000000000000000000000000000000000000000000000000000000000000000000000000000\n\
        end\n",
    ),
    (
        "blocks = 3\n\
        per_block = 2\n\
        ---\n\
        caller,op,a,b\n\
        0,store,0,a0\n\
        0,store,4096,a1\n\
        0,store,8192,a2\n\
        0,store,12288,a3\n\
        0,store,1,b0\n",
        0,
        "session 0\n\
        0 0 store 0 a0 done\n\
        0 1 store 4096 a1 done\n\
        0 2 store 8192 a2 done\n\
        0 3 store 12288 a3 full\n\
        0 4 store 1 b0 done\n\
        turns promote 0 0 evict 0 0 collect 0 0 drain 0 0\n\
        lines device 4 host 0 landed 0 dropped 0\n\
        moves promoted 0 retreated 0\n\
        flash reads 0 programs 0 seals 0 erases 0 faults 0\n\
        kept 5\n\
        pages 3\n\
        line 0 0 a0b00000000000000000000000000000000000000000000000000000000000000000000000000000000000000000000000000000000000000000000000000000\n\
        line 1 0 a1000000000000000000000000000000000000000000000000000000000000000000000000000000000000000000000000000000000000000000000000000000\n\
        line 2 0 a2000000000000000000000000000000000000000000000000000000000000000000000000000000000000000000000000000000000000000000000000000000\n\
        end\n",
    ),
    (
        "---\n\
        caller,op,a,b\n\
        0,store,0,aa\n\
        1,load,0,1\n\
        1,mark,0,9+1\n\
        0,verify,,\n\
        1,release,16,\n",
        0,
        "session 0\n\
        0 0 store 0 aa done\n\
        1 0 load 0 1 aa\n\
        1 1 mark 0 9+1 done\n\
        0 1 verify done\n\
        1 2 release 16 range\n\
        turns promote 0 0 evict 0 0 collect 0 0 drain 0 0\n\
        lines device 2 host 0 landed 0 dropped 0\n\
        moves promoted 0 retreated 0\n\
        flash reads 0 programs 0 seals 0 erases 0 faults 0\n\
        kept 5\n\
        pages 1\n\
        mark 0 0000000000000200\n\
        line 0 0 aa000000000000000000000000000000000000000000000000000000000000000000000000000000000000000000000000000000000000000000000000000000\n\
        end\n",
    ),
    (
        "---\n\
        caller,op,a,b\n\
        0,mark,0,60+5\n",
        0,
        "session 0\n\
        0 0 mark 0 60+5 range\n\
        turns promote 0 0 evict 0 0 collect 0 0 drain 0 0\n\
        lines device 0 host 0 landed 0 dropped 0\n\
        moves promoted 0 retreated 0\n\
        flash reads 0 programs 0 seals 0 erases 0 faults 0\n\
        kept 1\n\
        pages 0\n\
        end\n",
    ),
    (
        "---\r\n\
        \u{feff}caller,op,a,b\r\n\
        \r\n\
        \"0\",\"store\",\"1\",\"AbCd\"\r\n\
        0,load,0,4",
        0,
        "session 0\n\
        0 0 store 1 abcd done\n\
        0 1 load 0 4 00abcd00\n\
        turns promote 0 0 evict 0 0 collect 0 0 drain 0 0\n\
        lines device 2 host 0 landed 0 dropped 0\n\
        moves promoted 0 retreated 0\n\
        flash reads 0 programs 0 seals 0 erases 0 faults 0\n\
        kept 2\n\
        pages 1\n\
        line 0 0 00abcd00000000000000000000000000000000000000000000000000000000000000000000000000000000000000000000000000000000000000000000000000\n\
        end\n",
    ),
];
