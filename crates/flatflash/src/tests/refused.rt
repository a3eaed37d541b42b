// Inputs that are refused, with their status and text.
use super::Case;

pub static CASES: [Case; 11] = [
    (
        "ways = 17\n\
        ---\n\
        caller,op,a,b\n",
        2,
        "settings: bound ways\n",
    ),
    (
        "fail = 3\n\
        ---\n\
        caller,op,a,b\n",
        2,
        "settings: kind fail\n",
    ),
    (
        "wayss = 4\n\
        ---\n\
        caller,op,a,b\n",
        2,
        "settings: key\n",
    ),
    (
        "ways = \n\
        ---\n\
        caller,op,a,b\n",
        2,
        "settings: text\n",
    ),
    (
        "cut = [{at = 2, mask = 0}]\n\
        ---\n\
        0,fly,,\n",
        2,
        "settings: kind cut\n",
    ),
    (
        "power_event = 0\n\
        ---\n\
        caller,op,a,b\n",
        2,
        "settings: key\n",
    ),
    (
        "---\n\
        caller,op,a,b\n\
        0,store,10,aabb\n\
        0,fly,,\n\
        0,load,10,2\n",
        3,
        "trace: row 2\n",
    ),
    (
        "cut = [{at = 9, mask = 0, arrive = 0}]\n\
        ---\n\
        caller,op,a,b\n\
        -,power,0,\n\
        -,power,0,\n\
        -,power,0,\n\
        -,power,0,\n\
        -,power,0,\n\
        -,power,0,\n\
        -,power,0,\n\
        -,power,0,\n\
        -,power,0,\n\
        -,power,0,\n\
        -,power,0,\n\
        -,power,0,\n\
        -,power,0,\n\
        -,power,0,\n\
        -,power,0,\n\
        -,power,0,\n",
        3,
        "trace: row 16\n",
    ),
    ("", 3, "trace: no separator\n"),
    ("---\n", 3, "trace: row 0\n"),
    (
        " ---\n\
        caller,op,a,b\n",
        3,
        "trace: no separator\n",
    ),
];
