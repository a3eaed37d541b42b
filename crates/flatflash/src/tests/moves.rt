// Inputs by which pages move, with their status and text.
use super::Case;

pub static CASES: [Case; 5] = [
    (
        "---\n\
        caller,op,a,b\n\
        0,load,0,1\n\
        0,load,0,1\n\
        0,load,0,1\n\
        0,load,0,1\n\
        -,promote,12,\n\
        0,store,320,11111111111111111111111111111111111111111111111111111111111111111111111111111111111111111111111111111111111111111111111111111111\n\
        -,promote,1,\n\
        0,load,320,2\n",
        0,
        "session 0\n\
        0 0 load 0 1 00\n\
        0 1 load 0 1 00\n\
        0 2 load 0 1 00\n\
        0 3 load 0 1 00\n\
        0 4 store 320 11111111111111111111111111111111111111111111111111111111111111111111111111111111111111111111111111111111111111111111111111111111 done\n\
        0 5 load 320 2 1111\n\
        turns promote 13 13 evict 0 0 collect 0 0 drain 0 0\n\
        lines device 4 host 2 landed 5 dropped 1\n\
        moves promoted 1 retreated 0\n\
        flash reads 0 programs 0 seals 0 erases 0 faults 0\n\
        kept 6\n\
        pages 0\n\
        end\n",
    ),
    (
        "---\n\
        caller,op,a,b\n\
        0,store,576,22222222222222222222222222222222222222222222222222222222222222222222222222222222222222222222222222222222222222222222222222222222\n\
        0,load,0,1\n\
        0,load,0,1\n\
        0,load,0,1\n\
        -,promote,12,\n\
        0,store,577,33\n\
        0,load,576,4\n",
        0,
        "session 0\n\
        0 0 store 576 22222222222222222222222222222222222222222222222222222222222222222222222222222222222222222222222222222222222222222222222222222222 done\n\
        0 1 load 0 1 00\n\
        0 2 load 0 1 00\n\
        0 3 load 0 1 00\n\
        0 4 store 577 33 done\n\
        0 5 load 576 4 22332222\n\
        turns promote 12 12 evict 0 0 collect 0 0 drain 0 0\n\
        lines device 4 host 2 landed 5 dropped 0\n\
        moves promoted 1 retreated 0\n\
        flash reads 0 programs 0 seals 0 erases 0 faults 0\n\
        kept 6\n\
        pages 1\n\
        line 0 9 22222222222222222222222222222222222222222222222222222222222222222222222222222222222222222222222222222222222222222222222222222222\n\
        end\n",
    ),
    (
        "frames = 1\n\
        ---\n\
        caller,op,a,b\n\
        0,load,0,1\n\
        0,load,0,1\n\
        0,load,0,1\n\
        0,load,0,1\n\
        -,promote,130,\n\
        0,store,0,aa\n\
        -,evict,2,\n\
        0,store,0,bb\n\
        -,evict,3,\n\
        0,load,0,1\n",
        0,
        "session 0\n\
        0 0 load 0 1 00\n\
        0 1 load 0 1 00\n\
        0 2 load 0 1 00\n\
        0 3 load 0 1 00\n\
        0 4 store 0 aa done\n\
        0 5 store 0 bb done\n\
        0 6 load 0 1 bb\n\
        turns promote 130 130 evict 5 5 collect 0 0 drain 0 0\n\
        lines device 5 host 2 landed 65 dropped 0\n\
        moves promoted 1 retreated 1\n\
        flash reads 0 programs 0 seals 0 erases 0 faults 0\n\
        kept 7\n\
        pages 1\n\
        line 0 0 bb000000000000000000000000000000000000000000000000000000000000000000000000000000000000000000000000000000000000000000000000000000\n\
        end\n",
    ),
    (
        "---\n\
        caller,op,a,b\n\
        0,load,0,1\n\
        0,load,0,1\n\
        0,load,0,1\n\
        0,load,0,1\n\
        -,promote,12,\n\
        0,store,0,aa\n\
        0,store,576,bb\n\
        0,mark,0,\n\
        0,load,0,1\n\
        0,load,576,1\n",
        0,
        "session 0\n\
        0 0 load 0 1 00\n\
        0 1 load 0 1 00\n\
        0 2 load 0 1 00\n\
        0 3 load 0 1 00\n\
        0 4 store 0 aa done\n\
        0 5 store 576 bb done\n\
        0 6 mark 0 done\n\
        0 7 load 0 1 aa\n\
        0 8 load 576 1 bb\n\
        turns promote 12 12 evict 0 0 collect 0 0 drain 0 0\n\
        lines device 6 host 2 landed 7 dropped 0\n\
        moves promoted 1 retreated 1\n\
        flash reads 0 programs 0 seals 0 erases 0 faults 0\n\
        kept 9\n\
        pages 1\n\
        mark 0\n\
        line 0 0 aa000000000000000000000000000000000000000000000000000000000000000000000000000000000000000000000000000000000000000000000000000000\n\
        line 0 9 bb000000000000000000000000000000000000000000000000000000000000000000000000000000000000000000000000000000000000000000000000000000\n\
        end\n",
    ),
    (
        "---\n\
        caller,op,a,b\n\
        0,load,0,1\n\
        0,load,0,1\n\
        0,load,0,1\n\
        -,promote,1,\n\
        0,load,0,1\n\
        -,promote,1,\n",
        0,
        "session 0\n\
        0 0 load 0 1 00\n\
        0 1 load 0 1 00\n\
        0 2 load 0 1 00\n\
        0 3 load 0 1 00\n\
        turns promote 2 1 evict 0 0 collect 0 0 drain 0 0\n\
        lines device 4 host 0 landed 0 dropped 0\n\
        moves promoted 1 retreated 0\n\
        flash reads 0 programs 0 seals 0 erases 0 faults 0\n\
        kept 4\n\
        pages 0\n\
        end\n",
    ),
];
