// Inputs with losses of power, with their status and text.
use super::Case;

pub static CASES: [Case; 8] = [
    (
        "---\n\
        caller,op,a,b\n\
        0,mark,0,\n\
        0,store,0,aa\n\
        0,store,1,bb\n\
        -,power,1,\n",
        0,
        "session 0\n\
        0 0 mark 0 done\n\
        0 1 store 0 aa done\n\
        0 2 store 1 bb done\n\
        turns promote 0 0 evict 0 0 collect 0 0 drain 0 0\n\
        lines device 2 host 0 landed 0 dropped 0\n\
        moves promoted 0 retreated 0\n\
        flash reads 0 programs 0 seals 0 erases 0 faults 0\n\
        kept 2\n\
        pages 1\n\
        mark 0\n\
        line 0 0 aa000000000000000000000000000000000000000000000000000000000000000000000000000000000000000000000000000000000000000000000000000000\n\
        end\n\
        session 1\n\
        turns promote 0 0 evict 0 0 collect 0 0 drain 0 0\n\
        lines device 0 host 0 landed 0 dropped 0\n\
        moves promoted 0 retreated 0\n\
        flash reads 0 programs 0 seals 0 erases 0 faults 0\n\
        kept 0\n\
        pages 1\n\
        mark 0\n\
        line 0 0 aa000000000000000000000000000000000000000000000000000000000000000000000000000000000000000000000000000000000000000000000000000000\n\
        end\n",
    ),
    (
        "---\n\
        caller,op,a,b\n\
        0,mark,0,\n\
        0,store,0,aa\n\
        0,store,1,bb\n\
        -,power,0,\n",
        0,
        "session 0\n\
        0 0 mark 0 done\n\
        0 1 store 0 aa done\n\
        0 2 store 1 bb done\n\
        turns promote 0 0 evict 0 0 collect 0 0 drain 0 0\n\
        lines device 2 host 0 landed 0 dropped 0\n\
        moves promoted 0 retreated 0\n\
        flash reads 0 programs 0 seals 0 erases 0 faults 0\n\
        kept 1\n\
        pages 0\n\
        mark 0\n\
        end\n\
        session 1\n\
        turns promote 0 0 evict 0 0 collect 0 0 drain 0 0\n\
        lines device 0 host 0 landed 0 dropped 0\n\
        moves promoted 0 retreated 0\n\
        flash reads 0 programs 0 seals 0 erases 0 faults 0\n\
        kept 0\n\
        pages 0\n\
        mark 0\n\
        end\n",
    ),
    (
        "---\n\
        caller,op,a,b\n\
        0,mark,0,\n\
        0,store,0,aa\n\
        0,store,1,bb\n\
        -,power,5,\n",
        0,
        "session 0\n\
        0 0 mark 0 done\n\
        0 1 store 0 aa done\n\
        0 2 store 1 bb done\n\
        turns promote 0 0 evict 0 0 collect 0 0 drain 0 0\n\
        lines device 2 host 0 landed 0 dropped 0\n\
        moves promoted 0 retreated 0\n\
        flash reads 0 programs 0 seals 0 erases 0 faults 0\n\
        kept 3\n\
        pages 1\n\
        mark 0\n\
        line 0 0 aabb0000000000000000000000000000000000000000000000000000000000000000000000000000000000000000000000000000000000000000000000000000\n\
        end\n\
        session 1\n\
        turns promote 0 0 evict 0 0 collect 0 0 drain 0 0\n\
        lines device 0 host 0 landed 0 dropped 0\n\
        moves promoted 0 retreated 0\n\
        flash reads 0 programs 0 seals 0 erases 0 faults 0\n\
        kept 0\n\
        pages 1\n\
        mark 0\n\
        line 0 0 aabb0000000000000000000000000000000000000000000000000000000000000000000000000000000000000000000000000000000000000000000000000000\n\
        end\n",
    ),
    (
        "---\n\
        caller,op,a,b\n\
        0,mark,0,\n\
        0,store,0,aa\n\
        0,verify,,\n\
        0,store,1,bb\n\
        -,power,0,\n",
        0,
        "session 0\n\
        0 0 mark 0 done\n\
        0 1 store 0 aa done\n\
        0 2 verify done\n\
        0 3 store 1 bb done\n\
        turns promote 0 0 evict 0 0 collect 0 0 drain 0 0\n\
        lines device 2 host 0 landed 0 dropped 0\n\
        moves promoted 0 retreated 0\n\
        flash reads 0 programs 0 seals 0 erases 0 faults 0\n\
        kept 3\n\
        pages 1\n\
        mark 0\n\
        line 0 0 aa000000000000000000000000000000000000000000000000000000000000000000000000000000000000000000000000000000000000000000000000000000\n\
        end\n\
        session 1\n\
        turns promote 0 0 evict 0 0 collect 0 0 drain 0 0\n\
        lines device 0 host 0 landed 0 dropped 0\n\
        moves promoted 0 retreated 0\n\
        flash reads 0 programs 0 seals 0 erases 0 faults 0\n\
        kept 0\n\
        pages 1\n\
        mark 0\n\
        line 0 0 aa000000000000000000000000000000000000000000000000000000000000000000000000000000000000000000000000000000000000000000000000000000\n\
        end\n",
    ),
    (
        "---\n\
        caller,op,a,b\n\
        0,mark,0,9+1\n\
        0,store,0,aa\n\
        0,store,576,bb\n\
        -,power,0,\n",
        0,
        "session 0\n\
        0 0 mark 0 9+1 done\n\
        0 1 store 0 aa done\n\
        0 2 store 576 bb done\n\
        turns promote 0 0 evict 0 0 collect 0 0 drain 0 0\n\
        lines device 2 host 0 landed 0 dropped 0\n\
        moves promoted 0 retreated 0\n\
        flash reads 0 programs 0 seals 0 erases 0 faults 0\n\
        kept 1\n\
        pages 0\n\
        mark 0 0000000000000200\n\
        end\n\
        session 1\n\
        turns promote 0 0 evict 0 0 collect 0 0 drain 0 0\n\
        lines device 0 host 0 landed 0 dropped 0\n\
        moves promoted 0 retreated 0\n\
        flash reads 0 programs 0 seals 0 erases 0 faults 0\n\
        kept 0\n\
        pages 0\n\
        mark 0 0000000000000200\n\
        end\n",
    ),
    (
        "---\n\
        caller,op,a,b\n\
        0,mark,0,9+1\n\
        0,store,0,aa\n\
        0,store,576,bb\n\
        -,power,1,\n",
        0,
        "session 0\n\
        0 0 mark 0 9+1 done\n\
        0 1 store 0 aa done\n\
        0 2 store 576 bb done\n\
        turns promote 0 0 evict 0 0 collect 0 0 drain 0 0\n\
        lines device 2 host 0 landed 0 dropped 0\n\
        moves promoted 0 retreated 0\n\
        flash reads 0 programs 0 seals 0 erases 0 faults 0\n\
        kept 2\n\
        pages 1\n\
        mark 0 0000000000000200\n\
        line 0 0 aa000000000000000000000000000000000000000000000000000000000000000000000000000000000000000000000000000000000000000000000000000000\n\
        end\n\
        session 1\n\
        turns promote 0 0 evict 0 0 collect 0 0 drain 0 0\n\
        lines device 0 host 0 landed 0 dropped 0\n\
        moves promoted 0 retreated 0\n\
        flash reads 0 programs 0 seals 0 erases 0 faults 0\n\
        kept 0\n\
        pages 1\n\
        mark 0 0000000000000200\n\
        line 0 0 aa000000000000000000000000000000000000000000000000000000000000000000000000000000000000000000000000000000000000000000000000000000\n\
        end\n",
    ),
    (
        "fail = [1]\n\
        ---\n\
        caller,op,a,b\n",
        7,
        "session 0\n\
        turns promote 0 0 evict 0 0 collect 0 0 drain 0 0\n\
        lines device 0 host 0 landed 0 dropped 0\n\
        moves promoted 0 retreated 0\n\
        flash reads 0 programs 0 seals 0 erases 0 faults 0\n\
        kept 0\n\
        no image fault\n\
        end\n",
    ),
    (
        "cut = [{at = 1, mask = 0, arrive = 0}]\n\
        ---\n\
        caller,op,a,b\n",
        7,
        "session 0\n\
        turns promote 0 0 evict 0 0 collect 0 0 drain 0 0\n\
        lines device 0 host 0 landed 0 dropped 0\n\
        moves promoted 0 retreated 0\n\
        flash reads 0 programs 0 seals 0 erases 0 faults 0\n\
        kept 0\n\
        no image off\n\
        end\n",
    ),
];
